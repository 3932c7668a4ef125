// The numbers of types that were read, the one that was put last standing first.
ghost use Rattle.std.specs.Prelude.{◌≡◌, ℕ, ◌≤◌, List, [], length, drop, IfOk};
ghost use Rattle.typing.specs.Stacks.{Put};

use ranks::names::MOST;
use std::alloc::{AllocError, Global};
use std::marker::Model;

// They stand at the end of a memory of one size, in the order in which they are looked at.
#[derive(Drop)]
pub struct Stack {
    memory: Vec<u32>,
    top: usize,
}

impl Model for Stack {
    ghost Value = { List ℕ };

    ghost view = { λ s. drop s.top s.memory.items };

    ghost invariant = { λ s. (s.top ≤ 8200) × (length s.memory.items ≡ 8200) };
}

impl Stack {
    pub(crate) fn new(heap: Global) -> Result<Stack, AllocError>
        ensures { IfOk result (λ s. s ≡ []) }
    {
        let memory = Vec::from_elem(heap, 0, MOST)?;
        Ok(Stack::over(memory))
    }

    // The empty stack in a memory of that one size, whatever the memory holds.
    pub fn over(memory: Vec<u32>) -> Stack
        requires { length memory.items ≡ 8200 }
        ensures { result ≡ [] }
    {
        Stack { memory, top: MOST }
    }

    pub(crate) fn clear(&mut self)
        ensures { self.new ≡ [] }
    {
        self.top = MOST;
    }

    pub fn numbers(&self) -> &[u32]
        ensures is { result.now ≡ self.now }
        ensures few { length result.now ≤ 8200 }
    {
        &self.memory[self.top..]
    }

    // Puts a number in place of so many; none where there are not as many, or no room.
    pub(crate) fn put(&mut self, parts: usize, x: u32) -> Option<()>
        ensures { Put self.old self.new parts x result }
    {
        if MOST - self.top < parts {
            return None;
        }
        let at = (self.top + parts).checked_sub(1)?;
        self.memory[at] = x;
        self.top = at;
        Some(())
    }
}
