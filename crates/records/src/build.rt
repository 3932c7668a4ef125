// Records of one field.
ghost use Rattle.std.specs.Prelude.{◌≡◌};
ghost use Rattle.values.specs.Lent.{all, made_to};
ghost use Rattle.records.specs.Records.{MakesField};

use values::lent::Memory;
use values::value::{Field, Place, Value};

// A record of one field, if there is room.
pub fn as_field(memory: &mut Memory, name: Place, value: Value) -> Option<Value>
    ensures frozen { memory.new.kept.now ≡ memory.old.kept.now }
    ensures same { memory.new.made.ghost_name ≡ memory.old.made.ghost_name }
    ensures makes { MakesField name value (all memory.old) memory.old.top (all memory.new) (made_to memory.new.top result) }
{
    let start = memory.put_next(Field { name, value })?;
    Some(Value::Record(Place { start, count: 1 }))
}
