// The eight operators on two values, by case.
ghost use Rattle.std.specs.Prelude.{◌≡◌};
ghost use Rattle.values.specs.Lent.{all};
ghost use Rattle.operators.specs.Came.{came_to};
ghost use Rattle.binary.specs.Operands.{Operands, Does};

use crate::{of_bags, of_records, plain};
use format::node::Binary;
use operators::came::{Came, Stop};
use values::lent::Memory;
use values::value::Value;

pub fn operate(
    op: Binary,
    deep: usize,
    bytes: &[u8],
    a: Value,
    b: Value,
    memory: &mut Memory,
    left: u64,
) -> Result<Came, Stop>
    requires { Operands op bytes.now deep a b (all memory.old) memory.old.top }
    ensures frozen { memory.new.kept.now ≡ memory.old.kept.now }
    ensures same { memory.new.made.ghost_name ≡ memory.old.made.ghost_name }
    ensures does { Does op bytes.now deep a b (all memory.old) memory.old.top left (all memory.new) (came_to memory.new.top result) }
{
    match op {
        Binary::Equal => plain::equal(bytes, a, b, deep, &memory.row(), left),
        Binary::And => plain::both_true(a, b, left),
        Binary::Or => plain::one_true(a, b, left),
        Binary::Plus => plain::plus(a, b, left),
        Binary::Less => plain::less(a, b, left),
        Binary::JoinBags => of_bags::join_two(a, b, memory, left),
        Binary::JoinRecords => of_records::join_two(bytes, a, b, deep, memory, left),
        Binary::Within => of_bags::within(bytes, a, b, deep, &memory.row(), left),
    }
}
