// Some fields of a record: all but one, or those with certain names.
ghost use Rattle.std.specs.Prelude.{◌≡◌, ◌≤◌, length};
ghost use Rattle.values.specs.Lent.{all, made_to};
ghost use Rattle.records.specs.Records.{FieldsBelow, Keeps, LeavesOut, IsOneOf, TakesOnly};

use crate::field::{index_of, is_named};
use format::name::read_name;
use values::lent::Memory;
use values::value::{Field, Place, Value};

// The fields of a record that are to be kept, as is told of each by its number and its name.
fn chosen<F: Fn(usize, Place) -> bool>(memory: &mut Memory, place: Place, keeps: F) -> Option<Value>
    requires calls { F.IsAlwaysCallable keeps }
    requires below { FieldsBelow place memory.old.top }
    ensures frozen { memory.new.kept.now ≡ memory.old.kept.now }
    ensures same { memory.new.made.ghost_name ≡ memory.old.made.ghost_name }
    ensures makes { Keeps (λ i name b. F.post keeps i name b) place (all memory.old) memory.old.top (all memory.new) (made_to memory.new.top result) }
{
    let start = memory.top;
    let mut count = 0;
    for i in 0..place.count {
        let field = memory.nth::<Field>(place.start, i);
        if keeps(i, field.name) {
            memory.put_next(field)?;
            count += 1;
        }
    }
    Some(Value::Record(Place { start, count }))
}

// A record without the field of a name: the first that has it.
pub fn without(bytes: &[u8], memory: &mut Memory, name: Place, place: Place) -> Option<Value>
    requires { FieldsBelow place memory.old.top }
    ensures frozen { memory.new.kept.now ≡ memory.old.kept.now }
    ensures same { memory.new.made.ghost_name ≡ memory.old.made.ghost_name }
    ensures makes { LeavesOut bytes.now name place (all memory.old) memory.old.top (all memory.new) (made_to memory.new.top result) }
{
    let gone = index_of(bytes, &memory.row(), name, place);
    chosen(memory, place, |i, _| gone != Some(i))
}

// Whether a name is one of those that stand in the request's bytes from a place on, each after its length.
pub fn one_of(bytes: &[u8], names: Place, name: Place) -> bool
    requires { names.start ≤ length bytes.now }
    ensures { IsOneOf bytes.now names.start names.count name result }
{
    let mut here = names.start;
    for _ in 0..names.count {
        let Ok(length) = read_name(&bytes[here..]) else {
            return false;
        };
        let other = Place {
            start: here + 4,
            count: length,
        };
        if is_named(bytes, name, other) {
            return true;
        }
        here += 4 + length;
    }
    false
}

// The fields of a record whose names are among those that stand in the request's bytes from a place on.
pub fn only(bytes: &[u8], memory: &mut Memory, names: Place, place: Place) -> Option<Value>
    requires names { names.start ≤ length bytes.now }
    requires below { FieldsBelow place memory.old.top }
    ensures frozen { memory.new.kept.now ≡ memory.old.kept.now }
    ensures same { memory.new.made.ghost_name ≡ memory.old.made.ghost_name }
    ensures makes { TakesOnly bytes.now names.start names.count place (all memory.old) memory.old.top (all memory.new) (made_to memory.new.top result) }
{
    chosen(memory, place, |_, name| one_of(bytes, names, name))
}
