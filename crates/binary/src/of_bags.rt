// Two bags in one, and whether a datum is in a bag. How many things they hold is paid first.
ghost use Rattle.std.specs.Prelude.{◌≡◌, ℕ};
ghost use Rattle.values.specs.Lent.{words, all};
ghost use Rattle.operators.specs.Came.{came_to};
ghost use Rattle.binary.specs.Operands.{Does, DoesThere, SomeOperands, OperandsBelow};

use bags::join::join_bags;
use bags::once::is_in;
use format::node::Binary;
use operators::came::{Came, Stop, pay};
use operators::kinds::bag;
use values::lent::Memory;
use values::row::Row;
use values::value::Value;

// All of one bag, and then all of another.
pub fn join_two(a: Value, b: Value, memory: &mut Memory, left: u64) -> Result<Came, Stop>
    requires { SomeOperands Binary.JoinBags a b (all memory.old) memory.old.top }
    ensures frozen { memory.new.kept.now ≡ memory.old.kept.now }
    ensures same { memory.new.made.ghost_name ≡ memory.old.made.ghost_name }
    ensures does { DoesThere Binary.JoinBags a b (all memory.old) memory.old.top left (all memory.new) (came_to memory.new.top result) }
{
    let x = bag(a)?;
    let y = bag(b)?;
    let rest = pay(left, (x.count + y.count) as u64)?;
    let value = join_bags(memory, x, y).ok_or(Stop::NoRoom)?;
    Ok(Came { value, left: rest })
}

// Whether a datum is one of a bag's things.
pub fn within(
    bytes: &[u8],
    a: Value,
    b: Value,
    deep: usize,
    row: &Row,
    left: u64,
) -> Result<Came, Stop>
    requires { OperandsBelow Binary.Within bytes.now deep a b (words row.now) }
    ensures { (top : ℕ) → Does Binary.Within bytes.now deep a b (words row.now) top left (words row.now) (came_to top result) }
{
    let y = bag(b)?;
    let rest = pay(left, y.count as u64)?;
    Ok(Came {
        value: Value::Truth(is_in(bytes, row, a, y, deep)),
        left: rest,
    })
}
