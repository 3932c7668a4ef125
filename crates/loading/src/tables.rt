// The tables of a request, loaded one after the other.
ghost use Rattle.std.specs.Prelude.{◌≡◌};
ghost use Rattle.values.specs.Memory.{Kept};
ghost use Rattle.values.specs.Lent.{all};
ghost use Rattle.loading.specs.Loads.{reached, RowsInside, LoadsTables, Begins};

use crate::data::load_row;
use crate::loaded::{Spot, Typing};
use values::lent::Memory;

// Loads as many tables as there are types, from a place on, each of the type that stands in its order from another place on. Their slots are
// reserved in a row: table n is in the slot of that number. Where they begin, or nothing where there was no room. `OF_TYPE` as
// for `load`.
pub fn load_each<const OF_TYPE: bool>(
    spot: Spot,
    count: usize,
    memory: &mut Memory,
) -> Option<usize>
    ensures frozen { memory.new.kept.now ≡ memory.old.kept.now }
    ensures same { memory.new.made.ghost_name ≡ memory.old.made.ghost_name }
    ensures begins { Begins memory.old.top result }
    ensures kept { Kept memory.old.top (all memory.old) (all memory.new) }
    ensures inside { RowsInside memory.old.top count (all memory.new) (reached memory.new.top result) }
    ensures means { LoadsTables spot.entry.bytes.now spot.entry.at spot.entry.ty count memory.old.top (all memory.new) (reached memory.new.top result) }
{
    let slots = load_row::<OF_TYPE>(spot, Typing::Own, count, spot.bytes.len(), memory)?;
    Some(slots.start)
}

// So, of whatever tables there are.
pub fn load_tables(spot: Spot, count: usize, memory: &mut Memory) -> Option<usize>
    ensures frozen { memory.new.kept.now ≡ memory.old.kept.now }
    ensures same { memory.new.made.ghost_name ≡ memory.old.made.ghost_name }
    ensures begins { Begins memory.old.top result }
    ensures kept { Kept memory.old.top (all memory.old) (all memory.new) }
    ensures inside { RowsInside memory.old.top count (all memory.new) (reached memory.new.top result) }
    ensures means { LoadsTables spot.entry.bytes.now spot.entry.at spot.entry.ty count memory.old.top (all memory.new) (reached memory.new.top result) }
{
    load_each::<false>(spot, count, memory)
}
