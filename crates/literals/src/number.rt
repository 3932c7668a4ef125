// Everything that a query writes out gets a number, in the order in which it stands.
ghost use Rattle.literals.specs.Literals.{Put, Numbers};

use crate::step::{Part, Step};

// Puts a number at a place, and returns the next one. A number after which none is left is not put.
fn put(marks: &mut [u32], at: usize, next: u32) -> u32
    ensures { Put marks.old marks.new at next result }
{
    if at >= marks.len() || next == u32::MAX {
        return next;
    }
    marks[at] = next;
    next + 1
}

// The walk here and that of `fill` are two: what one hands on is a number, the other may fail, and the four arms would be there in one walk too.
// Numbers what a part of the query writes out from `next` on, and returns the number after.
pub fn number(part: Part, marks: &mut [u32], next: u32) -> u32
    ensures { Numbers part.entry.query.now part.entry.guide.now marks.old marks.new part.entry.at next result }
{
    match part.next_step() {
        Step::Bare => next,
        Step::Written(_) => put(marks, part.at, next),
        Step::One(first) => number(part.part(first), marks, next),
        Step::Two(first, last) => {
            let middle = number(part.part(first), marks, next);
            number(part.part(last), marks, middle)
        }
    }
}
