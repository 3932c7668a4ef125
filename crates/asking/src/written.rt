// What a query came to is written into the part of memory that is still free.
ghost use Rattle.std.specs.Prelude.{◌≤◌};
ghost use Rattle.values.specs.Lent.{all};
ghost use Rattle.operators.specs.Came.{came_at};
ghost use Rattle.asking.specs.Outcomes.{WrittenOut};

use crate::outcome::Outcome;
use operators::came::{Came, Stop};
use values::lent::Memory;
use values::row::Row;
use writing::out::write_out;

// Values are read from the memory that is in use, and the bytes are written after it.
pub fn written<'a>(
    bytes: &[u8],
    memory: Memory<'a>,
    came: Came,
    budget: u64,
) -> Result<Outcome<'a>, Stop>
    requires { came.left ≤ budget }
    ensures { WrittenOut bytes.now (all memory.entry) (came_at memory.entry.top came) budget result }
{
    let Memory { kept, made, top } = memory;
    let (made, free) = made.split_at_mut(top - kept.len());
    let row = Row { kept, made };
    let n = write_out(bytes, &row, came.value, free).ok_or(Stop::NoRoom)?;
    Ok(Outcome {
        words: &free[..n],
        looked: budget - came.left,
    })
}
