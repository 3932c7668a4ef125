// A desk as it is served: it tells each request its answer by a line.
ghost use Rattle.std.specs.Prelude.{ℕ, Bool, List, length, OnOk};

use crate::answers::make_large;
use std::alloc::{AllocError, Global};

pub trait Teller: Drop {
    // What is promised of a line, by the request's bytes, how many numbers are lent with it, whether to say how much was looked at, and the lines before
    // it and with it.
    ghost tells: { List ℕ → ℕ → Bool → List ℕ → List ℕ → Type 0 };

    // A desk, unless the memory for it can't be had.
    fn make(heap: Global) -> Result<Self, AllocError>;

    // Appends the line of the answer to a request; `work` is whether to say how much was looked at.
    fn tell(
        &mut self,
        heap: Global,
        bytes: &[u8],
        lent: &mut [u64],
        work: bool,
        out: &mut Vec<u8>,
    ) -> Result<(), AllocError>
        ensures { OnOk result (tells bytes.now (length lent.old) work out.old.items out.new.items) };

    // Appends the line of the answer to a request, with so many numbers lent of a memory that is made large enough.
    fn answer_one(
        &mut self,
        heap: Global,
        bytes: &[u8],
        numbers: usize,
        memory: &mut Vec<u64>,
        work: bool,
        out: &mut Vec<u8>,
    ) -> Result<(), AllocError>
        ensures { OnOk result (tells bytes.now numbers work out.old.items out.new.items) }
    {
        make_large(memory, numbers)?;
        let lent = &mut memory.as_mut_slice()[0..numbers];
        self.tell(heap, bytes, lent, work, out)
    }
}
