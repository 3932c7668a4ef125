// Operators on what one part of a query came to. The unit of work that the operator costs was paid before.
#![tactic(auto)]

ghost use Rattle.std.specs.Prelude.{◌≡◌};
ghost use Rattle.values.specs.Lent.{all};
ghost use Rattle.operators.specs.Came.{came_to};
ghost use Rattle.operators.specs.Ready.{OneReady, Ones};

pub mod of_bags;
pub mod of_records;
pub mod plain;

use crate::of_bags::{counted, flattened, in_a_bag, once, summed};
use crate::of_records::{dotted, fielded, left_out, projected};
use crate::plain::{negated, sided};
use format::node::Unary;
use operators::came::{Came, Stop};
use operators::op::Single;
use values::lent::Memory;
use values::value::{Place, Value};

// An operator of the format. Its names stand in the request's bytes, five bytes after the beginning of its query.
fn unary_of(
    op: Unary,
    spot: usize,
    deep: usize,
    bytes: &[u8],
    v: Value,
    memory: &mut Memory,
    left: u64,
) -> Result<Came, Stop>
    requires { OneReady bytes.now spot deep (Single.Op op) v (all memory.old) memory.old.top }
    ensures frozen { memory.new.kept.now ≡ memory.old.kept.now }
    ensures same { memory.new.made.ghost_name ≡ memory.old.made.ghost_name }
    ensures ones { Ones bytes.now spot deep (Single.Op op) v (all memory.old) memory.old.top left (all memory.new) (came_to memory.new.top result) }
{
    let named = |count| Place {
        start: spot + 5,
        count,
    };
    match op {
        Unary::Not => negated(v, left),
        Unary::InBag => in_a_bag(v, memory, left),
        Unary::Flat => flattened(v, memory, left),
        Unary::Count => counted(v, left),
        Unary::Sum => summed(v, memory, left),
        Unary::Distinct => once(deep, bytes, v, memory, left),
        Unary::Dot(count) => dotted(named(count), bytes, v, memory, left),
        Unary::AsField(count) => fielded(named(count), v, memory, left),
        Unary::Without(count) => left_out(named(count), bytes, v, memory, left),
        Unary::Only(many) => projected(named(many), bytes, v, memory, left),
    }
}

// An operator on a value, by what it is and where its query stands in the request's bytes. Values nest no deeper than `deep`.
pub fn single_of(
    op: Single,
    spot: usize,
    deep: usize,
    bytes: &[u8],
    v: Value,
    memory: &mut Memory,
    left: u64,
) -> Result<Came, Stop>
    requires { OneReady bytes.now spot deep op v (all memory.old) memory.old.top }
    ensures frozen { memory.new.kept.now ≡ memory.old.kept.now }
    ensures same { memory.new.made.ghost_name ≡ memory.old.made.ghost_name }
    ensures ones { Ones bytes.now spot deep op v (all memory.old) memory.old.top left (all memory.new) (came_to memory.new.top result) }
{
    match op {
        Single::Op(unary) => unary_of(unary, spot, deep, bytes, v, memory, left),
        Single::Left => sided(v, memory, left, Value::Left),
        Single::Right => sided(v, memory, left, Value::Right),
    }
}
