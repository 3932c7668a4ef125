// Memory of the desk's own. It is made once and used again for each request, and it is enough for every request: none can fail for want of it.
ghost use Rattle.std.specs.Prelude.{◌≤◌, vec_len, IfOk};
ghost use Rattle.types.specs.Outcomes.{InOrder};
ghost use Rattle.typing.specs.Room.{Spacious};

use std::alloc::{AllocError, Global};
use typing::memory::{Memory, new};

// A query within the limit of parts has at most so many bytes: nine a part, which a number that is written out takes.
const LONGEST: usize = 73728;

#[derive(Drop)]
pub struct Desk {
    // in which types are worked out
    pub memory: Memory,
    // for each place at which a part of the query begins, where the last part of that begins
    pub guide: Vec<u32>,
    // for each place at which the query writes something out, the number of that
    pub marks: Vec<u32>,
    ghost spacious: { Spacious memory },
    ghost guided: { 73728 ≤ vec_len guide },
    ghost marked: { 73728 ≤ vec_len marks },
}

// A desk, unless the memory for it can't be had.
pub fn make_desk(heap: Global) -> Result<Desk, AllocError>
    ensures { IfOk result (λ d. InOrder d.memory.table) }
{
    let memory = new(heap)?;
    let guide = Vec::from_elem(heap, 0, LONGEST)?;
    let marks = Vec::from_elem(heap, 0, LONGEST)?;
    Ok(Desk {
        memory,
        guide,
        marks,
    })
}
