// Types of what operators come to, by the numbers of the types of what they are given. None where there is none.
ghost use Rattle.std.specs.Prelude.{◌-◌, ◌<◌, List, [], slice_index_or};
ghost use Rattle.query.specs.Data.{Name};
ghost use Rattle.query.specs.Query.{not_so, in_bag, flat, count, sum, distinct, dot, as_field, without, project, equal, and, or, plus, less, join_bags, join_recs, within};
ghost use Rattle.query.specs.Types.{type1, type2};
ghost use Rattle.format.specs.Nodes.{op_2};
ghost use Rattle.types.specs.Shapes.{type_at, Ranked};
ghost use Rattle.types.specs.Outcomes.{look, size, Grew, Meant, Says};
ghost use Rattle.types.specs.Operators.{NamesOf, named, Plain1, op_1};

use crate::entry::Entry;
use crate::record::get;
use crate::table::Table;
use format::node::{Binary, Unary};

impl Table {
    // A truth's contrary is of the same type.
    fn not(&self, x: u32) -> Option<u32>
        requires within { x < size self.now }
        ensures grew { Grew self.now self.now result }
        ensures says { Says self.now self.now 0 0 result (λ ns. type1 not_so (type_at ns (look self.now) x)) }
    {
        if self.is_truth(x) { Some(x) } else { None }
    }

    pub fn in_bag(&mut self, x: u32) -> Option<u32>
        requires within { x < size self.old }
        ensures grew { Grew self.old self.new result }
        ensures says { Says self.old self.new 1 0 result (λ ns. type1 in_bag (type_at ns (look self.old) x)) }
    {
        self.make(Entry::Bag(x))
    }

    // What is in a bag of bags is itself of the type that comes of it.
    fn flat(&self, x: u32) -> Option<u32>
        requires within { x < size self.now }
        ensures grew { Grew self.now self.now result }
        ensures says { Says self.now self.now 0 0 result (λ ns. type1 flat (type_at ns (look self.now) x)) }
    {
        let u = self.elem_of(x)?;
        self.elem_of(u)?;
        Some(u)
    }

    fn count(&mut self, x: u32) -> Option<u32>
        requires within { x < size self.old }
        ensures grew { Grew self.old self.new result }
        ensures says { Says self.old self.new 1 0 result (λ ns. type1 count (type_at ns (look self.old) x)) }
    {
        self.elem_of(x)?;
        self.make(Entry::Num)
    }

    fn sum(&self, x: u32) -> Option<u32>
        requires within { x < size self.now }
        ensures grew { Grew self.now self.now result }
        ensures says { Says self.now self.now 0 0 result (λ ns. type1 sum (type_at ns (look self.now) x)) }
    {
        let u = self.elem_of(x)?;
        if self.is_num(u) { Some(u) } else { None }
    }

    fn distinct(&self, x: u32) -> Option<u32>
        requires within { x < size self.now }
        ensures grew { Grew self.now self.now result }
        ensures says { Says self.now self.now 0 0 result (λ ns. type1 distinct (type_at ns (look self.now) x)) }
    {
        self.elem_of(x)?;
        Some(x)
    }

    // The type of a field.
    pub fn dot(&self, name: u32, x: u32) -> Option<u32>
        requires name { name < self.now.names }
        requires within { x < size self.now }
        ensures grew { Grew self.now self.now result }
        ensures says { Says self.now self.now 0 0 result (λ ns. type1 (dot (slice_index_or ns name [])) (type_at ns (look self.now) x)) }
    {
        let p = self.run_of(x)?;
        get(p.among(&self.fields), name)
    }

    // The type of a record of one field.
    pub fn as_field(&mut self, name: u32, x: u32) -> Option<u32>
        requires name { name < self.old.names }
        requires within { x < size self.old }
        ensures grew { Grew self.old self.new result }
        ensures says { Says self.old self.new 1 self.old.names result (λ ns. type1 (as_field (slice_index_or ns name [])) (type_at ns (look self.old) x)) }
    {
        if !self.spare(1) {
            return None;
        }
        Some(self.single(name, x))
    }

    // The type of a record without a field.
    pub fn without(&mut self, name: u32, x: u32) -> Option<u32>
        requires name { name < self.old.names }
        requires within { x < size self.old }
        ensures grew { Grew self.old self.new result }
        ensures says { Says self.old self.new 1 self.old.names result (λ ns. type1 (without (slice_index_or ns name [])) (type_at ns (look self.old) x)) }
    {
        let p = self.run_of(x)?;
        if !self.spare(self.names) {
            return None;
        }
        Some(self.kept(p, &[name], false))
    }

    // The type of a record with only the fields of some names.
    pub fn only(&mut self, names: &[u32], x: u32) -> Option<u32>
        requires within { x < size self.old }
        ensures grew { Grew self.old self.new result }
        ensures says { (ns : List Name) → Ranked ns self.old.names → NamesOf self.old.names names.now → Meant ns self.old self.new 1 self.old.names result (type1 (project (named ns names.now)) (type_at ns (look self.old) x)) }
    {
        let p = self.run_of(x)?;
        if !self.spare(self.names) {
            return None;
        }
        Some(self.kept(p, names, true))
    }

    // The type of two records in one.
    pub fn join_recs(&mut self, x: u32, y: u32) -> Option<u32>
        requires first { x < size self.old }
        requires second { y < size self.old }
        ensures grew { Grew self.old self.new result }
        ensures says { Says self.old self.new 1 self.old.names result (λ ns. type2 join_recs (type_at ns (look self.old) x) (type_at ns (look self.old) y)) }
    {
        let p = self.run_of(x)?;
        let q = self.run_of(y)?;
        if !self.spare(self.names) {
            return None;
        }
        Some(self.both(p, q))
    }

    // The type of a comparison: both sides are of one type, and so of one number.
    fn equal(&mut self, x: u32, y: u32) -> Option<u32>
        requires first { x < size self.old }
        requires second { y < size self.old }
        ensures grew { Grew self.old self.new result }
        ensures says { Says self.old self.new 1 0 result (λ ns. type2 equal (type_at ns (look self.old) x) (type_at ns (look self.old) y)) }
    {
        if x == y {
            self.make(Entry::Truth)
        } else {
            None
        }
    }

    // Both of two truths, or one of them.
    fn both_truths(&self, x: u32, y: u32) -> Option<u32>
        requires first { x < size self.now }
        requires second { y < size self.now }
        ensures grew { Grew self.now self.now result }
        ensures says { Says self.now self.now 0 0 result (λ ns. type2 and (type_at ns (look self.now) x) (type_at ns (look self.now) y)) }
    {
        if self.is_truth(x) && self.is_truth(y) {
            Some(x)
        } else {
            None
        }
    }

    fn plus(&self, x: u32, y: u32) -> Option<u32>
        requires first { x < size self.now }
        requires second { y < size self.now }
        ensures grew { Grew self.now self.now result }
        ensures says { Says self.now self.now 0 0 result (λ ns. type2 plus (type_at ns (look self.now) x) (type_at ns (look self.now) y)) }
    {
        if self.is_num(x) && self.is_num(y) {
            Some(x)
        } else {
            None
        }
    }

    fn less(&mut self, x: u32, y: u32) -> Option<u32>
        requires first { x < size self.old }
        requires second { y < size self.old }
        ensures grew { Grew self.old self.new result }
        ensures says { Says self.old self.new 1 0 result (λ ns. type2 less (type_at ns (look self.old) x) (type_at ns (look self.old) y)) }
    {
        if !self.is_num(x) || !self.is_num(y) {
            return None;
        }
        self.make(Entry::Truth)
    }

    // Two bags of one type.
    pub fn join_bags(&self, x: u32, y: u32) -> Option<u32>
        requires first { x < size self.now }
        requires second { y < size self.now }
        ensures grew { Grew self.now self.now result }
        ensures says { Says self.now self.now 0 0 result (λ ns. type2 join_bags (type_at ns (look self.now) x) (type_at ns (look self.now) y)) }
    {
        self.elem_of(x)?;
        if x == y { Some(x) } else { None }
    }

    fn within(&mut self, x: u32, y: u32) -> Option<u32>
        requires first { x < size self.old }
        requires second { y < size self.old }
        ensures grew { Grew self.old self.new result }
        ensures says { Says self.old self.new 1 0 result (λ ns. type2 within (type_at ns (look self.old) x) (type_at ns (look self.old) y)) }
    {
        let v = self.elem_of(y)?;
        if x == v {
            self.make(Entry::Truth)
        } else {
            None
        }
    }

    // The type of an operator of two.
    pub fn two(&mut self, o: Binary, x: u32, y: u32) -> Option<u32>
        requires first { x < size self.old }
        requires second { y < size self.old }
        ensures grew { Grew self.old self.new result }
        ensures says { Says self.old self.new 1 self.old.names result (λ ns. type2 (op_2 o) (type_at ns (look self.old) x) (type_at ns (look self.old) y)) }
    {
        match o {
            Binary::Equal => self.equal(x, y),
            Binary::And => self.both_truths(x, y),
            Binary::Or => self.both_truths(x, y),
            Binary::Plus => self.plus(x, y),
            Binary::Less => self.less(x, y),
            Binary::JoinBags => self.join_bags(x, y),
            Binary::JoinRecords => self.join_recs(x, y),
            Binary::Within => self.within(x, y),
        }
    }

    // The type of an operator of one that has no name; none for those that have one.
    pub fn one(&mut self, o: Unary, x: u32) -> Option<u32>
        requires within { x < size self.old }
        ensures grew { Grew self.old self.new result }
        ensures says { Plain1 o → Says self.old self.new 1 self.old.names result (λ ns. type1 (op_1 o) (type_at ns (look self.old) x)) }
    {
        match o {
            Unary::Not => self.not(x),
            Unary::InBag => self.in_bag(x),
            Unary::Flat => self.flat(x),
            Unary::Count => self.count(x),
            Unary::Sum => self.sum(x),
            Unary::Distinct => self.distinct(x),
            Unary::Dot(_) => None,
            Unary::AsField(_) => None,
            Unary::Without(_) => None,
            Unary::Only(_) => None,
        }
    }
}
