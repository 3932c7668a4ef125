// Words, and what lies in so many of them, read from memory and written to it.
ghost use Rattle.std.specs.Prelude.{◌≡◌, ℕ, ◌+◌, ◌*◌, ◌^◌, ◌<◌, ◌≤◌, ◌++◌, length, slice_index, true, false, MatchOption};
ghost use Rattle.values.specs.Memory.{Put, Readable};
ghost use Rattle.values.specs.Lent.{words, all, WordPut, Steady, SteadyThere, Pushes, PushesThere, Reserves, Appends};

use crate::item::{InPlace, Item};
use crate::lent::Memory;
use crate::row::Row;
use crate::value::{Place, Value};

impl<'a> Row<'a> {
    // How many words there are.
    pub fn size(&self) -> usize
        ensures { result ≡ length (words self.now) }
    {
        self.kept.len() + self.made.len()
    }

    pub fn word(&self, at: usize) -> u64
        requires { at < length (words self.now) }
        ensures { result ≡ slice_index (words self.now) at }
    {
        if at < self.kept.len() {
            self.kept[at]
        } else {
            self.made[at - self.kept.len()]
        }
    }

    pub fn load<T: Item>(&self, at: usize) -> T
        requires { at + T.WORDS ≤ length (words self.now) }
        ensures { result ≡ T.read (words self.now) at }
    {
        T::load(self, at)
    }

    // The thing of that number, of those in a row from a place on.
    pub fn nth<T: Item>(&self, start: usize, i: usize) -> T
        requires { start + T.WORDS * i + T.WORDS ≤ length (words self.now) }
        ensures { result ≡ T.read (words self.now) (start + T.WORDS * i) }
    {
        T::load(self, start + T::WORDS * i)
    }

    // The thing at a place, if it lies in the row.
    pub fn find<T: Item>(&self, at: usize) -> Option<T>
        ensures { MatchOption result (length (words self.now) < at + T.WORDS) (λ x. (at + T.WORDS ≤ length (words self.now)) × (x ≡ T.read (words self.now) at)) }
    {
        let size = self.size();
        if size < at || size - at < T::WORDS {
            return None;
        }
        Some(self.load(at))
    }

    // Whether so many things lie in the row, wherever none is said to be.
    pub fn holds<T: Item>(&self, place: Place) -> bool
        ensures within { result ≡ true → 0 < place.count → place.start + T.WORDS * place.count ≤ length (words self.now) }
        ensures past { result ≡ false → (0 < place.count) × (length (words self.now) < place.start + T.WORDS * place.count) }
    {
        if place.count == 0 {
            return true;
        }
        let size = self.size();
        if size < place.start || (size - place.start) / T::WORDS < place.count {
            return false;
        }
        true
    }
}

impl<'a> Memory<'a> {
    // All words, to be read.
    pub fn row(&self) -> Row<'_>
        ensures { words result ≡ all self.now }
    {
        Row {
            kept: self.kept,
            made: &self.made,
        }
    }

    // How many words there are.
    pub fn size(&self) -> usize
        ensures { result ≡ length (all self.now) }
    {
        self.row().size()
    }

    pub fn set(&mut self, at: usize, word: u64)
        requires over { length self.old.kept.now ≤ at }
        requires within { at < length (all self.old) }
        ensures put { WordPut at word (all self.old) (all self.new) }
        ensures steady { Steady self.old self.new }
        ensures same { self.new.made.ghost_name ≡ self.old.made.ghost_name }
    {
        let at = at - self.kept.len();
        self.made[at] = word;
    }

    pub fn load<T: Item>(&self, at: usize) -> T
        requires { at + T.WORDS ≤ length (all self.now) }
        ensures { result ≡ T.read (all self.now) at }
    {
        T::load(&self.row(), at)
    }

    // The thing of that number, of those in a row from a place on.
    pub fn nth<T: Item>(&self, start: usize, i: usize) -> T
        requires { start + T.WORDS * i + T.WORDS ≤ length (all self.now) }
        ensures { result ≡ T.read (all self.now) (start + T.WORDS * i) }
    {
        T::load(&self.row(), start + T::WORDS * i)
    }

    // Writes the thing of that number, of those in a row from a place on.
    pub fn set_nth<T: Item>(&mut self, start: usize, i: usize, thing: T)
        requires over { length self.old.kept.now ≤ start }
        requires within { start + T.WORDS * i + T.WORDS ≤ length (all self.old) }
        ensures put { Put T.WORDS T.read (start + T.WORDS * i) thing (all self.old) (all self.new) }
        ensures steady { Steady self.old self.new }
    {
        thing.store(self, start + T::WORDS * i)
    }

    // A thing at the beginning of free memory, if there is room; and where it is.
    pub fn push<T: Item>(&mut self, thing: T) -> Option<usize>
        ensures { Pushes T.WORDS T.read thing self.old self.new result }
    {
        let at = self.reserve::<T>(1)?;
        thing.store(self, at);
        Some(at)
    }

    // As `set_nth`, into the slice that was lent.
    pub fn put_nth<T: InPlace>(&mut self, start: usize, i: usize, thing: T)
        requires over { length self.old.kept.now ≤ start }
        requires within { start + T.Item.WORDS * i + T.Item.WORDS ≤ length (all self.old) }
        ensures put { Put T.Item.WORDS T.Item.read (start + T.Item.WORDS * i) thing (all self.old) (all self.new) }
        ensures steady { SteadyThere self.old self.new }
    {
        thing.put(self, start + T::WORDS * i)
    }

    // As `push`, into the slice that was lent.
    pub fn put_next<T: InPlace>(&mut self, thing: T) -> Option<usize>
        ensures { PushesThere T.Item.WORDS T.Item.read thing self.old self.new result }
    {
        let start = self.reserve::<T>(1)?;
        thing.put(self, start);
        Some(start)
    }

    // Room for so many things in a row, if there is as much; and where it begins.
    pub fn reserve<T: Item>(&mut self, count: usize) -> Option<usize>
        ensures { Reserves T.WORDS count self.old self.new result }
    {
        let start = self.top;
        if (self.size() - start) / T::WORDS < count {
            return None;
        }
        self.top = start + T::WORDS * count;
        Some(start)
    }

    // The values of a place once more where free memory begins, if there is room; and where that is.
    pub fn append(&mut self, from: Place) -> Option<usize>
        requires { Readable from self.old.top }
        ensures { Appends from self.old self.new result }
    {
        let start = self.reserve::<Value>(from.count)?;
        for i in 0..from.count {
            let value = self.nth::<Value>(from.start, i);
            self.put_nth(start, i, value);
        }
        Some(start)
    }

    // Memory is free from that place on: what was made there is given up.
    pub fn release(&mut self, top: usize)
        requires over { length self.old.kept.now ≤ top }
        requires within { top ≤ length (all self.old) }
        ensures words { all self.new ≡ all self.old }
        ensures frozen { self.new.kept.now ≡ self.old.kept.now }
        ensures same { self.new.made.ghost_name ≡ self.old.made.ghost_name }
        ensures top { self.new.top ≡ top }
    {
        self.top = top;
    }
}
