// Slots that were reserved in a row are filled with what a query writes out, in the order of its numbers.
ghost use Rattle.std.specs.Prelude.{◌≡◌, ℕ, ◌+◌, ◌≤◌, length};
ghost use Rattle.values.specs.Memory.{Kept};
ghost use Rattle.values.specs.Lent.{all};
ghost use Rattle.literals.specs.Literals.{so_far, filled, Reserved, FillInside, FillsOne, FillsAll};

use crate::step::{Part, Step};
use loading::data::load;
use loading::loaded::Spot;
use values::lent::Memory;
use values::value::Place;

// Loads a datum into free memory, and its value into the next slot, of which `next` are filled. `OF_TYPE` as for `load`.
fn fill_one<const OF_TYPE: bool>(
    spot: Spot,
    memory: &mut Memory,
    slots: Place,
    next: usize,
) -> Option<usize>
    requires room { Reserved slots (length memory.old.kept.now) memory.old.top }
    ensures frozen { memory.new.kept.now ≡ memory.old.kept.now }
    ensures same { memory.new.made.ghost_name ≡ memory.old.made.ghost_name }
    ensures kept { Kept slots.start (all memory.old) (all memory.new) }
    ensures inside { FillInside memory.old.top (all memory.new) (filled memory.new.top result) }
    ensures means { FillsOne spot.entry.bytes.now spot.entry.at spot.entry.ty slots (so_far memory.old.top next) (all memory.old) (all memory.new) (filled memory.new.top result) }
{
    if next >= slots.count {
        return None;
    }
    let l = load::<OF_TYPE>(spot, spot.bytes.len(), memory)?;
    memory.put_nth(slots.start, next, l.value);
    Some(next + 1)
}

// Loads all that a part of the query writes out, of which `next` slots are filled, and returns how many are filled then. The part begins at `place`
// of the request's bytes.
pub fn fill(
    bytes: &[u8],
    place: usize,
    part: Part,
    memory: &mut Memory,
    slots: Place,
    next: usize,
) -> Option<usize>
    requires room { Reserved slots (length memory.old.kept.now) memory.old.top }
    requires placed { place + length part.query.now ≤ length bytes.now }
    ensures frozen { memory.new.kept.now ≡ memory.old.kept.now }
    ensures same { memory.new.made.ghost_name ≡ memory.old.made.ghost_name }
    ensures kept { Kept slots.start (all memory.old) (all memory.new) }
    ensures inside { FillInside memory.old.top (all memory.new) (filled memory.new.top result) }
    ensures means { FillsAll bytes.now place part.entry.query.now part.entry.guide.now part.entry.at slots (so_far memory.old.top next) (all memory.old) (all memory.new) (filled memory.new.top result) }
{
    match part.next_step() {
        Step::Bare => Some(next),
        Step::Written(last) => {
            let spot = Spot {
                bytes,
                at: place + last,
                ty: place + 1,
            };
            fill_one::<false>(spot, memory, slots, next)
        }
        Step::One(first) => fill(bytes, place + first, part.part(first), memory, slots, next),
        Step::Two(first, last) => {
            let middle = fill(bytes, place + first, part.part(first), memory, slots, next)?;
            fill(bytes, place + last, part.part(last), memory, slots, middle)
        }
    }
}

// The same of what is known to be of its type, in less time where bags nest; other data it answers otherwise. It is a function of its own, since the
// checker does not take a recursion like this one over a parameter that says which.
pub fn fill_of_type(
    bytes: &[u8],
    place: usize,
    part: Part,
    memory: &mut Memory,
    slots: Place,
    next: usize,
) -> Option<usize>
    requires room { Reserved slots (length memory.old.kept.now) memory.old.top }
    requires placed { place + length part.query.now ≤ length bytes.now }
    ensures frozen { memory.new.kept.now ≡ memory.old.kept.now }
    ensures same { memory.new.made.ghost_name ≡ memory.old.made.ghost_name }
    ensures kept { Kept slots.start (all memory.old) (all memory.new) }
    ensures inside { FillInside memory.old.top (all memory.new) (filled memory.new.top result) }
    ensures means { FillsAll bytes.now place part.entry.query.now part.entry.guide.now part.entry.at slots (so_far memory.old.top next) (all memory.old) (all memory.new) (filled memory.new.top result) }
{
    match part.next_step() {
        Step::Bare => Some(next),
        Step::Written(last) => {
            let spot = Spot {
                bytes,
                at: place + last,
                ty: place + 1,
            };
            fill_one::<true>(spot, memory, slots, next)
        }
        Step::One(first) => fill_of_type(
            bytes,
            place + first,
            part.part(first),
            memory,
            slots,
            next,
        ),
        Step::Two(first, last) => {
            let middle = fill_of_type(bytes, place + first, part.part(first), memory, slots, next)?;
            fill_of_type(bytes, place + last, part.part(last), memory, slots, middle)
        }
    }
}
