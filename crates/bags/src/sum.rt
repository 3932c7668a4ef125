// Numbers of a bag in one.
ghost use Rattle.std.specs.Prelude.{length};
ghost use Rattle.values.specs.Memory.{Readable};
ghost use Rattle.values.specs.Lent.{words};
ghost use Rattle.bags.specs.Bags.{Sums};

use values::row::Row;
use values::value::{Place, Value};

// The sum of a bag's numbers, as far as it fits a word, or that one of its things is no number.
pub fn sum(row: &Row, place: Place) -> Option<u64>
    requires { Readable place (length (words row.now)) }
    ensures { Sums place (words row.now) result }
{
    let mut total: u64 = 0;
    for i in 0..place.count {
        let Value::Number(n) = row.nth(place.start, i) else {
            return None;
        };
        total = total.wrapping_add(n);
    }
    Some(total)
}
