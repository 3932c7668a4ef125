// Names: how many parts they count for.
ghost use Rattle.std.specs.Prelude.{suc, true, length};
ghost use Rattle.query.specs.Size.{sizes};
ghost use Rattle.format.specs.Coding.{name, counted as listed};
ghost use Rattle.parts.specs.Counts.{CountedInFront};
ghost use Rattle.parts.specs.Heads.{Weighs};

use crate::counted::Counted;
use crate::measured::{Front, Measured, measure};
use format::data::Names;
use format::name::read_name;
use format::number::read_u32;

// A name counts one, and each of its bytes.
impl Measured for Names {
    ghost coding = { name };

    ghost size = { λ n. suc (length n) };

    ghost holds = { λ _. true };

    fn front(bytes: &[u8], limit: usize) -> Option<Front> {
        let n = read_name(bytes).ok()?;
        if n >= limit {
            return None;
        }
        Some(Front {
            own: 1 + n,
            after: 0,
            length: 4 + n,
        })
    }
}

// The parts and the bytes of names that stand after their count.
pub fn names_parts(bytes: &[u8], limit: usize) -> Option<Counted>
    ensures { CountedInFront (listed name) sizes limit bytes.now result }
{
    let count = read_u32(bytes).ok()?;
    let names = measure::<Names>(&bytes[4..], count, limit)?;
    Some(Counted {
        parts: names.parts,
        length: 4 + names.length,
    })
}

// A number, if it is no more than the limit.
pub(crate) fn no_more(n: usize, limit: usize) -> Option<usize>
    ensures { Weighs limit n result }
{
    (n <= limit).then_some(n)
}
