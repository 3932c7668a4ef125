// What is in a bag, and each thing of a bag once.
ghost use Rattle.std.specs.Prelude.{◌≡◌, length};
ghost use Rattle.values.specs.Memory.{Readable};
ghost use Rattle.values.specs.Lent.{words, all, made_to};
ghost use Rattle.bags.specs.Bags.{IsWithin, TakesOnce};

use compare::same;
use values::item::InPlace;
use values::lent::Memory;
use values::row::Row;
use values::value::{Place, Value};

// Whether a value's datum is one of a bag's things. It nests no deeper than `depth`.
pub fn is_in(bytes: &[u8], row: &Row, value: Value, place: Place, depth: usize) -> bool
    requires { Readable place (length (words row.now)) }
    ensures { IsWithin bytes.now (words row.now) value place depth result }
{
    (0..place.count).any(|i| {
        let other = row.nth::<Value>(place.start, i);
        same(bytes, row, value, other, depth)
    })
}

// Each thing of a bag once. Of those that are the same the last stays, so the bag is gone through from its end, and the slots, which are
// reserved for all of it, are filled from the end downwards.
pub fn distinct(bytes: &[u8], memory: &mut Memory, place: Place, depth: usize) -> Option<Value>
    requires { Readable place memory.old.top }
    ensures frozen { memory.new.kept.now ≡ memory.old.kept.now }
    ensures same { memory.new.made.ghost_name ≡ memory.old.made.ghost_name }
    ensures makes { TakesOnce bytes.now place (all memory.old) depth memory.old.top (all memory.new) (made_to memory.new.top result) }
{
    memory.reserve::<Value>(place.count)?;
    let mut found = Place {
        start: memory.top,
        count: 0,
    };
    for i in (0..place.count).rev() {
        let thing = memory.nth::<Value>(place.start, i);
        if !is_in(bytes, &memory.row(), thing, found, depth) {
            found = Place {
                start: found.start - 3,
                count: found.count + 1,
            };
            thing.put(memory, found.start);
        }
    }
    Some(Value::Bag(found))
}
