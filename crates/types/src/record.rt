// Records in the table.
ghost use Rattle.std.specs.Prelude.{◌≡◌, ◌+◌, ◌-◌, ◌<◌, ◌≤◌, [], ◌∷◌, length};
ghost use Rattle.types.specs.Shapes.{held, Rising, s_rec};
ghost use Rattle.types.specs.Tables.{Made};
ghost use Rattle.types.specs.Outcomes.{Kept, Open};
ghost use Rattle.types.specs.Fields.{get_f, both_f, FirstOf, NextOf, listed, kept_f};

use crate::entry::{Field, Next, Run};
use crate::table::Table;
use std::cmp::Ordering;

impl Next {
    fn new(field: Field, first: u32, second: u32) -> Next
        ensures { result ≡ record { field = field; first = first; second = second } }
    {
        Next {
            field,
            first,
            second,
        }
    }
}

impl Run {
    fn first(self, fields: &[Field]) -> Option<Field>
        requires { self.start + self.count ≤ length fields.now }
        ensures { FirstOf (held fields.now self) result }
    {
        self.among(fields).first().copied()
    }

    // All but so many fields at the front.
    fn skip(self, k: u32) -> Run
        requires some { k ≤ self.count }
        requires fits { self.start + self.count < 4294967296 }
        ensures start { result.start ≡ self.start + k }
        ensures count { result.count ≡ self.count - k }
    {
        Run {
            start: self.start + k,
            count: self.count - k,
        }
    }
}

// The number of the type under a name, among some fields.
pub fn get(fields: &[Field], name: u32) -> Option<u32>
    ensures { listed result ≡ get_f name fields.now }
{
    for f in fields {
        if f.name == name {
            return Some(f.of);
        }
    }
    None
}

impl Table {
    // A record of one field.
    pub fn single(&mut self, name: u32, of: u32) -> u32
        requires name { name < self.old.names }
        requires within { of < length self.old.entries.items }
        requires spare { Open self.old 1 }
        ensures kept { Kept self.old self.new }
        ensures made { Made self.old.names self.old.entries.items self.old.fields.items self.new.entries.items self.new.fields.items (s_rec (record { name = name; of = of } ∷ [])) 1 result }
    {
        let start = self.fields.len();
        self.fields.push_reserved(Field { name, of });
        self.seal(start)
    }

    // The next field of two records in one, if there is one: the second's where both have one of a name.
    fn next(&self, p: Run, q: Run) -> Option<Next>
        requires first { p.start + p.count ≤ length self.now.fields.items }
        requires second { q.start + q.count ≤ length self.now.fields.items }
        requires rises { Rising self.now.names (length self.now.entries.items) 0 (held self.now.fields.items p) }
        requires rising { Rising self.now.names (length self.now.entries.items) 0 (held self.now.fields.items q) }
        ensures { NextOf (held self.now.fields.items p) (held self.now.fields.items q) result }
    {
        match (p.first(&self.fields), q.first(&self.fields)) {
            (None, None) => None,
            (Some(x), None) => Some(Next::new(x, 1, 0)),
            (None, Some(y)) => Some(Next::new(y, 0, 1)),
            (Some(x), Some(y)) => match x.name.cmp(&y.name) {
                Ordering::Less => Some(Next::new(x, 1, 0)),
                Ordering::Equal => Some(Next::new(y, 1, 1)),
                Ordering::Greater => Some(Next::new(y, 0, 1)),
            },
        }
    }

    // Two records in one.
    pub fn both(&mut self, p: Run, q: Run) -> u32
        requires first { p.start + p.count ≤ length self.old.fields.items }
        requires second { q.start + q.count ≤ length self.old.fields.items }
        requires rises { Rising self.old.names (length self.old.entries.items) 0 (held self.old.fields.items p) }
        requires rising { Rising self.old.names (length self.old.entries.items) 0 (held self.old.fields.items q) }
        requires spare { Open self.old self.old.names }
        ensures kept { Kept self.old self.new }
        ensures made { Made self.old.names self.old.entries.items self.old.fields.items self.new.entries.items self.new.fields.items (s_rec (both_f (held self.old.fields.items p) (held self.old.fields.items q))) self.old.names result }
    {
        let start = self.fields.len();
        let (mut p, mut q) = (p, q);
        while let Some(next) = self.next(p, q) {
            self.fields.push_reserved(next.field);
            p = p.skip(next.first);
            q = q.skip(next.second);
        }
        self.seal(start)
    }

    // The fields of a record whose names are among some, or those whose names are not.
    pub fn kept(&mut self, p: Run, names: &[u32], keep: bool) -> u32
        requires lies { p.start + p.count ≤ length self.old.fields.items }
        requires rises { Rising self.old.names (length self.old.entries.items) 0 (held self.old.fields.items p) }
        requires spare { Open self.old self.old.names }
        ensures kept { Kept self.old self.new }
        ensures made { Made self.old.names self.old.entries.items self.old.fields.items self.new.entries.items self.new.fields.items (s_rec (kept_f names.now keep (held self.old.fields.items p))) self.old.names result }
    {
        let start = self.fields.len();
        let from = p.start as usize;
        // By numbers, since fields are pushed on the vector that these stand in.
        for i in 0..p.count as usize {
            let f = self.field_at(from + i);
            if names.contains(&f.name) == keep {
                self.fields.push_reserved(f);
            }
        }
        self.seal(start)
    }
}
