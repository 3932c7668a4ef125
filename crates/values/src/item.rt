// What lies in memory as so many words: a value in a slot of three, a field in five.
ghost use Rattle.std.specs.Prelude.{◌≡◌, ◌==◌, refl, false, ℕ, ◌+◌, ◌≤◌, List, length};
ghost use Rattle.values.specs.Memory.{loaded, loaded_field, Put};
ghost use Rattle.values.specs.Lent.{words, all, Steady, SteadyThere, IsDecoded};

use crate::lent::Memory;
use crate::row::Row;
use crate::value::{Field, Place, Value};

pub trait Item: Copy + Drop {
    // how many words one takes
    ghost WORDS: { ℕ };

    const WORDS: usize;

    ghost some: { (WORDS == 0) ≡ false };

    // what the words from a place on stand for
    ghost read: { List ℕ → ℕ → Self };

    fn load(row: &Row, at: usize) -> Self
        requires { at + WORDS ≤ length (words row.now) }
        ensures { result ≡ read (words row.now) at };

    fn store(self, memory: &mut Memory, at: usize)
        requires over { length memory.old.kept.now ≤ at }
        requires within { at + WORDS ≤ length (all memory.old) }
        ensures put { Put WORDS read at self (all memory.old) (all memory.new) }
        ensures steady { Steady memory.old memory.new };
}

// What is written into the very slice that was lent, so that whoever lent it finds it there. Of an item alone only the memory after it is known.
pub trait InPlace: Item {
    fn put(self, memory: &mut Memory, at: usize)
        requires over { length memory.old.kept.now ≤ at }
        requires within { at + Self.Item.WORDS ≤ length (all memory.old) }
        ensures put { Put Self.Item.WORDS Self.Item.read at self (all memory.old) (all memory.new) }
        ensures steady { SteadyThere memory.old memory.new };
}

// A value from the three words of its slot, whatever they are.
impl From<[u64; 3]> for Value {
    ghost from_gives = { IsDecoded };

    fn from(words: [u64; 3]) -> Value {
        let [kind, x, y] = words;
        match kind {
            1 => Value::Number(x),
            2 => Value::Truth(false),
            3 => Value::Truth(true),
            4 => Value::Text(Place {
                start: x as usize,
                count: y as usize,
            }),
            5 => Value::Bag(Place {
                start: x as usize,
                count: y as usize,
            }),
            6 => Value::Record(Place {
                start: x as usize,
                count: y as usize,
            }),
            7 => Value::Left(x as usize),
            8 => Value::Right(x as usize),
            _ => Value::Nothing,
        }
    }
}

impl From<Value> for [u64; 3] {
    ghost from_gives = { λ v ws. IsDecoded ws v };

    fn from(value: Value) -> [u64; 3] {
        match value {
            Value::Nothing => [0, 0, 0],
            Value::Number(x) => [1, x, 0],
            Value::Truth(b) => [if b { 3 } else { 2 }, 0, 0],
            Value::Text(p) => [4, p.start as u64, p.count as u64],
            Value::Bag(p) => [5, p.start as u64, p.count as u64],
            Value::Record(p) => [6, p.start as u64, p.count as u64],
            Value::Left(at) => [7, at as u64, 0],
            Value::Right(at) => [8, at as u64, 0],
        }
    }
}

impl Item for Value {
    ghost WORDS = { 3 };

    ghost some = { refl };

    const WORDS: usize = 3;

    ghost read = { loaded };

    #[tactic(auto, unfolding(crate::specs::Memory::loaded))]
    fn load(row: &Row, at: usize) -> Value {
        Value::from([row.word(at), row.word(at + 1), row.word(at + 2)])
    }

    fn store(self, memory: &mut Memory, at: usize) {
        Value::put(self, memory, at);
    }
}

impl InPlace for Value {
    fn put(self, memory: &mut Memory, at: usize) {
        let [kind, x, y] = <[u64; 3]>::from(self);
        memory.set(at, kind);
        memory.set(at + 1, x);
        memory.set(at + 2, y);
    }
}

impl Item for Field {
    ghost WORDS = { 5 };

    ghost some = { refl };

    const WORDS: usize = 5;

    ghost read = { loaded_field };

    #[tactic(auto, unfolding(crate::specs::Memory::loaded_field))]
    fn load(row: &Row, at: usize) -> Field {
        Field {
            name: Place {
                start: row.word(at) as usize,
                count: row.word(at + 1) as usize,
            },
            value: Value::load(row, at + 2),
        }
    }

    fn store(self, memory: &mut Memory, at: usize) {
        Field::put(self, memory, at);
    }
}

impl InPlace for Field {
    fn put(self, memory: &mut Memory, at: usize) {
        memory.set(at, self.name.start as u64);
        memory.set(at + 1, self.name.count as u64);
        self.value.put(memory, at + 2);
    }
}
