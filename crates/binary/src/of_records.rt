// Two records in one.
ghost use Rattle.std.specs.Prelude.{◌≡◌};
ghost use Rattle.values.specs.Lent.{all};
ghost use Rattle.operators.specs.Came.{came_to};
ghost use Rattle.binary.specs.Operands.{Operands, Does};

use format::node::Binary;
use operators::came::{Came, Stop};
use operators::kinds::record;
use records::join::joined;
use values::lent::Memory;
use values::value::Value;

// All fields of two records, the second's where both have a name. The unit of work that was paid for it pays for its memory, since no record
// has more fields than there are names.
pub fn join_two(
    bytes: &[u8],
    a: Value,
    b: Value,
    deep: usize,
    memory: &mut Memory,
    left: u64,
) -> Result<Came, Stop>
    requires { Operands Binary.JoinRecords bytes.now deep a b (all memory.old) memory.old.top }
    ensures frozen { memory.new.kept.now ≡ memory.old.kept.now }
    ensures same { memory.new.made.ghost_name ≡ memory.old.made.ghost_name }
    ensures does { Does Binary.JoinRecords bytes.now deep a b (all memory.old) memory.old.top left (all memory.new) (came_to memory.new.top result) }
{
    let x = record(a)?;
    let y = record(b)?;
    let value = joined(bytes, memory, x, y).ok_or(Stop::NoRoom)?;
    Ok(Came { value, left })
}
