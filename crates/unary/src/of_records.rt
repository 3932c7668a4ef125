// What comes of records by names that stand in the request's bytes.
ghost use Rattle.std.specs.Prelude.{◌≡◌, ℕ, ◌≤◌, List, length};
ghost use Rattle.query.specs.Query.{dot, as_field, without};
ghost use Rattle.values.specs.Lent.{all};
ghost use Rattle.operators.specs.Came.{came_to};
ghost use Rattle.unary.specs.Unary.{Lies, TurnsByName, TurnsByNames};

use operators::came::{Came, Stop};
use operators::kinds::record;
use records::build::as_field;
use records::choose::{only, without};
use records::field::field;
use values::lent::Memory;
use values::value::{Place, Value};

// What a record has under a name.
pub fn dotted(name: Place, bytes: &[u8], v: Value, memory: &Memory, left: u64) -> Result<Came, Stop>
    requires { Lies v (all memory.now) memory.now.top }
    ensures { TurnsByName dot bytes.now name v (all memory.now) memory.now.top left (all memory.now) (came_to memory.now.top result) }
{
    let place = record(v)?;
    let value = field(bytes, &memory.row(), name, place).ok_or(Stop::Wrong)?;
    Ok(Came { value, left })
}

// A record of one field.
pub fn fielded(name: Place, v: Value, memory: &mut Memory, left: u64) -> Result<Came, Stop>
    ensures frozen { memory.new.kept.now ≡ memory.old.kept.now }
    ensures same { memory.new.made.ghost_name ≡ memory.old.made.ghost_name }
    ensures turns { (bs : List ℕ) → TurnsByName as_field bs name v (all memory.old) memory.old.top left (all memory.new) (came_to memory.new.top result) }
{
    let value = as_field(memory, name, v).ok_or(Stop::NoRoom)?;
    Ok(Came { value, left })
}

// A record without the field of a name.
pub fn left_out(
    name: Place,
    bytes: &[u8],
    v: Value,
    memory: &mut Memory,
    left: u64,
) -> Result<Came, Stop>
    requires { Lies v (all memory.old) memory.old.top }
    ensures frozen { memory.new.kept.now ≡ memory.old.kept.now }
    ensures same { memory.new.made.ghost_name ≡ memory.old.made.ghost_name }
    ensures turns { TurnsByName without bytes.now name v (all memory.old) memory.old.top left (all memory.new) (came_to memory.new.top result) }
{
    let place = record(v)?;
    let value = without(bytes, memory, name, place).ok_or(Stop::NoRoom)?;
    Ok(Came { value, left })
}

// The fields of a record whose names are among those that stand in the request's bytes from a place on.
pub fn projected(
    names: Place,
    bytes: &[u8],
    v: Value,
    memory: &mut Memory,
    left: u64,
) -> Result<Came, Stop>
    requires names { names.start ≤ length bytes.now }
    requires lies { Lies v (all memory.old) memory.old.top }
    ensures frozen { memory.new.kept.now ≡ memory.old.kept.now }
    ensures same { memory.new.made.ghost_name ≡ memory.old.made.ghost_name }
    ensures turns { TurnsByNames bytes.now names.start names.count v (all memory.old) memory.old.top left (all memory.new) (came_to memory.new.top result) }
{
    let place = record(v)?;
    let value = only(bytes, memory, names, place).ok_or(Stop::NoRoom)?;
    Ok(Came { value, left })
}
