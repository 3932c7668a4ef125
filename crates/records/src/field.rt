// A field of a record, by its name.
ghost use Rattle.std.specs.Prelude.{length};
ghost use Rattle.values.specs.Lent.{words};
ghost use Rattle.compare.specs.Compare.{MatchesTexts};
ghost use Rattle.records.specs.Records.{FieldsBelow, FindsIndex, Finds};

use compare::same_name;
use values::row::Row;
use values::value::{Field, Place, Value};

// Whether two names are the same. Names of different lengths differ, so their bytes need no look.
#[inline(always)]
pub fn is_named(bytes: &[u8], a: Place, b: Place) -> bool
    ensures { MatchesTexts bytes.now a b result }
{
    a.count == b.count && same_name(bytes, a, b)
}

// The number of the first field with a name, of a record's fields.
#[inline(always)]
pub fn index_of(bytes: &[u8], row: &Row, name: Place, place: Place) -> Option<usize>
    requires { FieldsBelow place (length (words row.now)) }
    ensures { FindsIndex bytes.now name place (words row.now) result }
{
    for i in 0..place.count {
        let field = row.nth::<Field>(place.start, i);
        if is_named(bytes, name, field.name) {
            return Some(i);
        }
    }
    None
}

// What a record has under a name.
#[inline(always)]
pub fn field(bytes: &[u8], row: &Row, name: Place, place: Place) -> Option<Value>
    requires { FieldsBelow place (length (words row.now)) }
    ensures { Finds bytes.now name place (words row.now) result }
{
    let i = index_of(bytes, row, name, place)?;
    Some(row.nth::<Field>(place.start, i).value)
}
