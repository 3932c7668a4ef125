// Where the walk is: how the parts of the query there are put together, and where they begin.
ghost use Rattle.std.specs.Prelude.{◌≡◌, ℕ, ◌+◌, ◌^◌, ◌<◌, ◌≤◌};
ghost use Rattle.typed.specs.Walks.{scene, Stepped};

use crate::scene::Lent;
use crate::shape::{Shape, shape_of};
use typing::visit::visit_at;

// Places are counted from the beginning of the whole query.
#[derive(Clone, Copy)]
pub struct Step {
    pub shape: Shape,
    pub first: usize,
    pub last: usize,
}

// So many bytes further, if there are as many.
fn further(pos: usize, by: usize, room: usize) -> usize
    requires { pos + room < 2 ^ 64 }
    ensures is { by ≤ room → result ≡ pos + by }
    ensures within { result ≤ pos + room }
{
    if by <= room { pos + by } else { pos }
}

pub fn step_at(lent: &Lent, pos: usize) -> Option<Step>
    ensures { Stepped (scene lent.now) pos result }
{
    let seen = visit_at(lent.bytes, lent.guide, lent.base, pos)?;
    let room = lent.bytes.len() - (lent.base + pos);
    Some(Step {
        shape: shape_of(seen.node),
        first: further(pos, seen.first, room),
        last: further(pos, seen.last, room),
    })
}
