// A bag of bags as one bag: first it is counted how many there are in all, and then they are copied one bag after the other.
ghost use Rattle.std.specs.Prelude.{◌≡◌, length};
ghost use Rattle.values.specs.Memory.{Readable};
ghost use Rattle.values.specs.Lent.{words, all};
ghost use Rattle.bags.specs.Bags.{ABag, Counts, Flattens};

use values::lent::Memory;
use values::row::Row;
use values::value::{Place, Value};

// A bag of bags in one bag, and how many things that has.
#[derive(Clone, Copy)]
pub struct Flattened {
    pub bag: Value,
    pub count: u128,
}

// Why there is none. How many things there are in all is said even if there is no room for them.
#[derive(Clone, Copy)]
pub enum NotFlat {
    NoRoom(u128),
    NoBag,
}

// How many there are in a bag's bags in all, or that one of its things is no bag. A number of 128 bits is large enough for any memory.
pub fn count_all(row: &Row, place: Place) -> Option<u128>
    requires { Readable place (length (words row.now)) }
    ensures { Counts place (words row.now) result }
{
    let mut total: u128 = 0;
    for i in 0..place.count {
        let Value::Bag(p) = row.nth(place.start, i) else {
            return None;
        };
        total += p.count as u128;
    }
    Some(total)
}

// All things of a bag's bags in one bag.
pub fn flat(memory: &mut Memory, place: Place) -> Result<Flattened, NotFlat>
    requires { ABag place (all memory.old) memory.old.top }
    ensures frozen { memory.new.kept.now ≡ memory.old.kept.now }
    ensures same { memory.new.made.ghost_name ≡ memory.old.made.ghost_name }
    ensures makes { Flattens place (all memory.old) memory.old.top (all memory.new) memory.new.top result }
{
    let count = count_all(&memory.row(), place).ok_or(NotFlat::NoBag)?;
    let start = memory.top;
    if (((memory.size() - start) / 3) as u128) < count {
        return Err(NotFlat::NoRoom(count));
    }
    for i in 0..place.count {
        if let Value::Bag(p) = memory.nth(place.start, i) {
            memory.append(p).ok_or(NotFlat::NoRoom(count))?;
        }
    }
    let bag = Value::Bag(Place {
        start,
        count: count as usize,
    });
    Ok(Flattened { bag, count })
}
