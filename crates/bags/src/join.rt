// Bags of values that are there already: one value in a bag, and two bags in one.
ghost use Rattle.std.specs.Prelude.{◌≡◌};
ghost use Rattle.values.specs.Memory.{Readable};
ghost use Rattle.values.specs.Lent.{all, made_to};
ghost use Rattle.bags.specs.Bags.{PutsInBag, Joins};

use values::lent::Memory;
use values::value::{Place, Value};

// A bag of one value, if there is room.
pub fn in_bag(memory: &mut Memory, value: Value) -> Option<Value>
    ensures frozen { memory.new.kept.now ≡ memory.old.kept.now }
    ensures same { memory.new.made.ghost_name ≡ memory.old.made.ghost_name }
    ensures makes { PutsInBag value (all memory.old) memory.old.top (all memory.new) (made_to memory.new.top result) }
{
    let start = memory.put_next(value)?;
    Some(Value::Bag(Place { start, count: 1 }))
}

// All of one bag, and then all of another.
pub fn join_bags(memory: &mut Memory, x: Place, y: Place) -> Option<Value>
    requires first { Readable x memory.old.top }
    requires second { Readable y memory.old.top }
    ensures frozen { memory.new.kept.now ≡ memory.old.kept.now }
    ensures same { memory.new.made.ghost_name ≡ memory.old.made.ghost_name }
    ensures makes { Joins x y (all memory.old) memory.old.top (all memory.new) (made_to memory.new.top result) }
{
    if (memory.size() - memory.top) / 3 < x.count + y.count {
        return None;
    }
    let start = memory.append(x)?;
    memory.append(y)?;
    Some(Value::Bag(Place {
        start,
        count: x.count + y.count,
    }))
}
