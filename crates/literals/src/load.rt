// What a query writes out is brought into memory.
ghost use Rattle.std.specs.Prelude.{◌≡◌, ℕ, ◌+◌, ◌≤◌, length};
ghost use Rattle.values.specs.Memory.{Kept};
ghost use Rattle.values.specs.Lent.{all};
ghost use Rattle.literals.specs.Literals.{brought, BroughtInside, Brings};

use crate::fill::{fill, fill_of_type};
use crate::number::number;
use crate::step::Part;
use values::lent::Memory;
use values::value::{Place, Value};

// Brings what the query writes out into free memory, and returns where the slots of it begin: number n is in the n-th of these, and the marks have
// the number of each place at which something is written out. It is numbered first, since the slots lie in a row and what is in them comes after
// all of them. Nothing where there was no room.
pub fn load_literals(
    bytes: &[u8],
    query_at: usize,
    query: &[u8],
    guide: &[u32],
    marks: &mut [u32],
    memory: &mut Memory,
) -> Option<usize>
    requires placed { query_at + length query.now ≤ length bytes.now }
    ensures frozen { memory.new.kept.now ≡ memory.old.kept.now }
    ensures same { memory.new.made.ghost_name ≡ memory.old.made.ghost_name }
    ensures kept { Kept memory.old.top (all memory.old) (all memory.new) }
    ensures inside { BroughtInside memory.old.top (all memory.new) (brought memory.new.top result) }
    ensures means { Brings bytes.now query_at query.now guide.now marks.old marks.new memory.old.top (all memory.new) (brought memory.new.top result) }
{
    let whole = Part {
        query,
        guide,
        at: 0,
    };
    let count = number(whole, marks, 0) as usize;
    let start = memory.reserve::<Value>(count)?;
    fill(bytes, query_at, whole, memory, Place { start, count }, 0)?;
    Some(start)
}

// The same of what is known to be of its type, in less time where bags nest; other data it answers otherwise.
pub fn load_literals_of_type(
    bytes: &[u8],
    query_at: usize,
    query: &[u8],
    guide: &[u32],
    marks: &mut [u32],
    memory: &mut Memory,
) -> Option<usize>
    requires placed { query_at + length query.now ≤ length bytes.now }
    ensures frozen { memory.new.kept.now ≡ memory.old.kept.now }
    ensures same { memory.new.made.ghost_name ≡ memory.old.made.ghost_name }
    ensures kept { Kept memory.old.top (all memory.old) (all memory.new) }
    ensures inside { BroughtInside memory.old.top (all memory.new) (brought memory.new.top result) }
    ensures means { Brings bytes.now query_at query.now guide.now marks.old marks.new memory.old.top (all memory.new) (brought memory.new.top result) }
{
    let whole = Part {
        query,
        guide,
        at: 0,
    };
    let count = number(whole, marks, 0) as usize;
    let start = memory.reserve::<Value>(count)?;
    fill_of_type(bytes, query_at, whole, memory, Place { start, count }, 0)?;
    Some(start)
}
