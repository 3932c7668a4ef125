// Operators on what two parts of a query came to.
#![tactic(auto)]

pub mod by;
pub mod choose;
pub mod fill;
pub mod of_bags;
pub mod of_records;
pub mod operate;
pub mod pair_up;
pub mod plain;

ghost use Rattle.std.specs.Prelude.{◌≡◌};
ghost use Rattle.values.specs.Lent.{all};
ghost use Rattle.operators.specs.Came.{came_to};
ghost use Rattle.operators.specs.Ready.{TwoReady, Twos};

use crate::by::{By, Rule};
use crate::operate::operate;
use operators::came::{Came, Stop};
use operators::op::Joint;
use values::lent::Memory;
use values::value::{Place, Value};

// What two values come to. The query stands at `spot` of the request's bytes, and the names of a match in it, each after its length.
pub fn pair_of(
    op: Joint,
    spot: usize,
    deep: usize,
    bytes: &[u8],
    a: Value,
    b: Value,
    memory: &mut Memory,
    left: u64,
) -> Result<Came, Stop>
    requires { TwoReady bytes.now spot deep op a b (all memory.old) memory.old.top }
    ensures frozen { memory.new.kept.now ≡ memory.old.kept.now }
    ensures same { memory.new.made.ghost_name ≡ memory.old.made.ghost_name }
    ensures comes { Twos bytes.now spot deep op a b (all memory.old) memory.old.top left (all memory.new) (came_to memory.new.top result) }
{
    match op {
        Joint::Op(o) => operate(o, deep, bytes, a, b, memory, left),
        Joint::Product => {
            let rule = Rule {
                by: By::All,
                bytes,
                deep,
            };
            rule.pair_up(a, b, memory, left)
        }
        Joint::Matched(i, j) => {
            let first = Place {
                start: spot + 5,
                count: i,
            };
            let second = Place {
                start: spot + 9 + i,
                count: j,
            };
            let rule = Rule {
                by: By::Names(first, second),
                bytes,
                deep,
            };
            rule.pair_up(a, b, memory, left)
        }
    }
}
