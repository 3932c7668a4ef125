// Memory of the desk's own, made once and used again for each request: what there is room for is enough for any query within the limit of parts.
ghost use Rattle.std.specs.Prelude.{ℕ, ◌≤◌, IfOk};
ghost use Rattle.types.specs.Outcomes.{InOrder};
ghost use Rattle.typing.specs.Room.{Roomy, Spacious};

use crate::stack::Stack;
use crate::work::Work;
use ranks::names::{MOST, Names};
use std::alloc::{AllocError, Global};
use types::table::Rows;

#[derive(Drop)]
pub struct Memory {
    pub names: Names,
    pub table: Rows,
    pub work: Work,
    // the numbers of the types of a request's schema
    pub schema: Vec<u32>,
}

// About 135 megabytes are reserved; no more of them are touched than a query needs.
pub fn new(heap: Global) -> Result<Memory, AllocError>
    ensures roomy { IfOk result (λ m. Roomy m) }
    ensures spacious { IfOk result (λ m. Spacious m) }
    ensures sound { IfOk result (λ m. InOrder m.table) }
{
    let places = Vec::with_capacity(heap, MOST)?;
    let entries = Vec::with_capacity(heap, 16400)?;
    let fields = Vec::with_capacity(heap, 16793600)?;
    let heads = Vec::with_capacity(heap, MOST)?;
    let ranks = Vec::with_capacity(heap, MOST)?;
    let stack = Stack::new(heap)?;
    let schema = Vec::with_capacity(heap, MOST)?;
    let names = Names { places };
    let table = Rows {
        names: 0,
        entries,
        fields,
    };
    let work = Work {
        heads,
        stack,
        ranks,
    };
    Ok(Memory {
        names,
        table,
        work,
        schema,
    })
}
