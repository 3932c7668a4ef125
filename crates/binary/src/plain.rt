// Operators that make no memory: sameness, truths and numbers.
ghost use Rattle.std.specs.Prelude.{ℕ};
ghost use Rattle.values.specs.Lent.{words};
ghost use Rattle.operators.specs.Came.{came_to};
ghost use Rattle.binary.specs.Operands.{Does, DoesAnywhere};

use compare::same;
use format::node::Binary;
use operators::came::{Came, Stop};
use operators::kinds::{number, truth};
use values::row::Row;
use values::value::Value;

// Whether two data are the same. They nest no deeper than `deep`.
pub fn equal(
    bytes: &[u8],
    a: Value,
    b: Value,
    deep: usize,
    row: &Row,
    left: u64,
) -> Result<Came, Stop>
    ensures { (top : ℕ) → Does Binary.Equal bytes.now deep a b (words row.now) top left (words row.now) (came_to top result) }
{
    Ok(Came {
        value: Value::Truth(same(bytes, row, a, b, deep)),
        left,
    })
}

// Whether two truths are both true.
pub fn both_true(a: Value, b: Value, left: u64) -> Result<Came, Stop>
    ensures { (top : ℕ) → DoesAnywhere Binary.And a b top left (came_to top result) }
{
    let x = truth(a)?;
    let y = truth(b)?;
    Ok(Came {
        value: Value::Truth(x && y),
        left,
    })
}

// Whether one of two truths is true.
pub fn one_true(a: Value, b: Value, left: u64) -> Result<Came, Stop>
    ensures { (top : ℕ) → DoesAnywhere Binary.Or a b top left (came_to top result) }
{
    let x = truth(a)?;
    let y = truth(b)?;
    Ok(Came {
        value: Value::Truth(x || y),
        left,
    })
}

// The sum of two numbers, as far as it fits a word.
pub fn plus(a: Value, b: Value, left: u64) -> Result<Came, Stop>
    ensures { (top : ℕ) → DoesAnywhere Binary.Plus a b top left (came_to top result) }
{
    let x = number(a)?;
    let y = number(b)?;
    Ok(Came {
        value: Value::Number(x.wrapping_add(y)),
        left,
    })
}

// Whether the first of two numbers is less.
pub fn less(a: Value, b: Value, left: u64) -> Result<Came, Stop>
    ensures { (top : ℕ) → DoesAnywhere Binary.Less a b top left (came_to top result) }
{
    let x = number(a)?;
    let y = number(b)?;
    Ok(Came {
        value: Value::Truth(x < y),
        left,
    })
}
