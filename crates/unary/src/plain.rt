// What is not so, and a value on the left or on the right.
ghost use Rattle.std.specs.Prelude.{◌≡◌, ℕ, List};
ghost use Rattle.query.specs.Data.{Data};
ghost use Rattle.query.specs.Query.{apply1, not_so, came};
ghost use Rattle.values.specs.Lent.{all};
ghost use Rattle.operators.specs.Came.{came_to};
ghost use Rattle.unary.specs.Unary.{Turns, Sides};

use operators::came::{Came, Stop};
use operators::kinds::truth;
use values::lent::Memory;
use values::value::Value;

pub fn negated(v: Value, left: u64) -> Result<Came, Stop>
    ensures { (m : List ℕ) (top : ℕ) → Turns (apply1 not_so) v m top left m (came_to top result) }
{
    let b = truth(v)?;
    Ok(Came {
        value: Value::Truth(!b),
        left,
    })
}

// A value put into a slot, on the side that is told of the slot's place.
pub fn sided<F: FnOnce(usize) -> Value>(
    v: Value,
    memory: &mut Memory,
    left: u64,
    side: F,
) -> Result<Came, Stop>
    requires { F.IsAlwaysCallable side }
    ensures frozen { memory.new.kept.now ≡ memory.old.kept.now }
    ensures same { memory.new.made.ghost_name ≡ memory.old.made.ghost_name }
    ensures turns { (on : Data → Data) → Sides (λ at r. F.post side at r) on → Turns (λ d. came 0 (on d)) v (all memory.old) memory.old.top left (all memory.new) (came_to memory.new.top result) }
{
    let at = memory.put_next(v).ok_or(Stop::NoRoom)?;
    Ok(Came {
        value: side(at),
        left,
    })
}
