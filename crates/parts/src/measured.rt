// One walk for all that is counted: a loop with a count of what is still to come, with no memory and no recursion.
ghost use Rattle.std.specs.Prelude.{ℕ, Bool};
ghost use Rattle.format.specs.Coding.{Coding, many};
ghost use Rattle.parts.specs.Counts.{total, all_hold, FrontTold, Measures};

use crate::counted::Counted;

// What the head in front of a thing says: how many parts it counts of its own, how many things of the sort come after it, and how many bytes it has.
#[derive(Clone, Copy)]
pub struct Front {
    pub own: usize,
    pub after: usize,
    pub length: usize,
}

// A sort of thing whose parts are counted, and of which something is asked.
// Each sort reads its own heads in a few lines; a trait over these too would have the laws of heads among its members, and be no plainer.
pub trait Measured {
    // how things of the sort are written
    ghost coding: { Coding };

    // how many parts a thing has
    ghost size: { coding.T → ℕ };

    // what is asked of a thing
    ghost holds: { coding.T → Bool };

    // The head in front, or nothing if it counts more than the limit or is not as is asked.
    fn front(bytes: &[u8], limit: usize) -> Option<Front>
        ensures { FrontTold coding size holds limit bytes.now result };
}

// The parts and the bytes of the `count` things in front, one after the other; nothing if they have more parts than the limit, or not all are as is asked.
pub fn measure<M: Measured>(bytes: &[u8], count: usize, limit: usize) -> Option<Counted>
    ensures { Measures (many M.coding count) (total M.size) (all_hold M.holds) limit bytes.now result }
{
    let mut parts: usize = 0;
    let mut end: usize = 0;
    let mut pending: u128 = count as u128;
    while pending > 0 {
        let front = M::front(&bytes[end..], limit - parts)?;
        parts += front.own;
        end += front.length;
        pending = pending - 1 + front.after as u128;
    }
    Some(Counted { parts, length: end })
}
