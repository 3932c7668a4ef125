// The parts of the types in a table, by their numbers; and making a type of such parts.
ghost use Rattle.std.specs.Prelude.{◌≡◌, ◌-◌, ◌<◌, List, [], ◌∷◌, length, slice_index_or};
ghost use Rattle.query.specs.Data.{Name};
ghost use Rattle.query.specs.Query.{a_truth};
ghost use Rattle.query.specs.Types.{elem, same_ty, as_num};
ghost use Rattle.types.specs.Shapes.{shape, meaning, types, type_at, Below};
ghost use Rattle.types.specs.Tables.{bag_part, run_part, sides_part, Lies};
ghost use Rattle.types.specs.Outcomes.{look, size, Spare, Grew, Says};

use crate::entry::{Entry, Run, Two};
use crate::intern::entry_at;
use crate::table::{MOST_FIELDS, MOST_TYPES, Table};

impl Entry {
    fn as_bag(self) -> Option<u32>
        ensures { result ≡ bag_part self }
    {
        match self {
            Entry::Bag(x) => Some(x),
            _ => None,
        }
    }

    fn as_record(self) -> Option<Run>
        ensures { result ≡ run_part self }
    {
        match self {
            Entry::Record(p) => Some(p),
            _ => None,
        }
    }

    fn as_either(self) -> Option<Two>
        ensures { result ≡ sides_part self }
    {
        match self {
            Entry::Either(p) => Some(p),
            _ => None,
        }
    }
}

// The fields of a record.
pub fn run_of(entries: &[Entry], x: u32) -> Option<Run>
    requires within { x < length entries.now }
    ensures { result ≡ run_part (slice_index_or entries.now x Entry.Unit) }
{
    entry_at(entries, x as usize).as_record()
}

// The two sides of an either.
pub fn sides_of(entries: &[Entry], x: u32) -> Option<Two>
    requires within { x < length entries.now }
    ensures { result ≡ sides_part (slice_index_or entries.now x Entry.Unit) }
{
    entry_at(entries, x as usize).as_either()
}

impl Table {
    // The type of what is in a bag.
    pub fn elem_of(&self, x: u32) -> Option<u32>
        requires within { x < size self.now }
        ensures grew { Grew self.now self.now result }
        ensures says { Says self.now self.now 0 0 result (λ ns. elem (type_at ns (look self.now) x)) }
    {
        self.entry_at(x as usize).as_bag()
    }

    // The fields of a record.
    pub fn run_of(&self, x: u32) -> Option<Run>
        requires within { x < size self.now }
        ensures { result ≡ run_part (slice_index_or self.now.entries.items x Entry.Unit) }
    {
        run_of(&self.entries, x)
    }

    // The two sides of an either.
    pub fn sides_of(&self, x: u32) -> Option<Two>
        requires within { x < size self.now }
        ensures { result ≡ sides_part (slice_index_or self.now.entries.items x Entry.Unit) }
    {
        sides_of(&self.entries, x)
    }

    // Whether a type is that of truths.
    pub fn is_truth(&self, x: u32) -> bool
        requires within { x < size self.now }
        ensures { (ns : List Name) → result ≡ same_ty (type_at ns (look self.now) x) a_truth }
    {
        self.entry_at(x as usize) == Entry::Truth
    }

    // Whether a type is that of numbers.
    pub fn is_num(&self, x: u32) -> bool
        requires within { x < size self.now }
        ensures { (ns : List Name) → result ≡ as_num (type_at ns (look self.now) x) }
    {
        self.entry_at(x as usize) == Entry::Num
    }

    // Whether there is room for a type and so many fields.
    pub fn spare(&self, s: usize) -> bool
        ensures { Spare result self.now s }
    {
        self.entries.len() < MOST_TYPES
            && self.fields.len() <= MOST_FIELDS
            && s <= MOST_FIELDS - self.fields.len()
    }

    // The number of a type that is no record, by its parts.
    pub fn make(&mut self, e: Entry) -> Option<u32>
        requires plain { Lies 0 e }
        requires parts { Below self.old.names (size self.old) (shape self.old.fields.items e) }
        ensures grew { Grew self.old self.new result }
        ensures says { Says self.old self.new 1 0 result (λ ns. meaning ns (types ns (look self.old)) (shape self.old.fields.items e) ∷ []) }
    {
        if !self.spare(0) {
            return None;
        }
        Some(self.plain(e))
    }
}
