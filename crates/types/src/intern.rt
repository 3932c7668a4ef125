// Looking a type up in the table, and putting it in where it is not there yet.
ghost use Rattle.std.specs.Prelude.{◌≡◌, ℕ, ◌+◌, ◌-◌, ◌<◌, ◌≤◌, ◌≢◌, List, length, take, drop, vec_len, vec_capacity, slice_index_or};
ghost use Rattle.types.specs.Shapes.{shape, held, Below, Rising, s_rec};
ghost use Rattle.types.specs.Tables.{Sound, Found, Lies, Tells, Made, no_such};
ghost use Rattle.types.specs.Outcomes.{Kept};

use crate::entry::{Entry, Field, Run};
use crate::table::Table;

impl Run {
    // The fields of a record, among those of a table.
    pub fn among(self, fields: &[Field]) -> &[Field]
        requires { self.start + self.count ≤ length fields.now }
        ensures { result.now ≡ held fields.now self }
    {
        let start = self.start as usize;
        let end = start + self.count as usize;
        &fields[start..end]
    }
}

// Whether two records' fields are the same. Where they differ, they mostly do in the last or the first already.
fn same_fields(xs: &[Field], ys: &[Field]) -> bool
    ensures { Tells result (xs.now ≡ ys.now) }
{
    let n = xs.len();
    if n != ys.len() {
        return false;
    }
    if n == 0 {
        return true;
    }
    xs[n - 1] == ys[n - 1] && xs[0] == ys[0] && xs == ys
}

// Whether two entries are of the same shape. The second is asked for its kind first: it is the one that is looked for, so that its kind is known
// before a whole table is gone through.
fn same_entry(fields: &[Field], x: Entry, y: Entry) -> bool
    requires first { Lies (length fields.now) x }
    requires second { Lies (length fields.now) y }
    ensures { Tells result (shape fields.now x ≡ shape fields.now y) }
{
    match y {
        Entry::Bag(j) => matches!(x, Entry::Bag(i) if i == j),
        Entry::Either(q) => matches!(x, Entry::Either(p) if p == q),
        Entry::Record(q) =>
            matches!(x, Entry::Record(p) if same_fields(p.among(fields), q.among(fields))),
        _ => x == y,
    }
}

pub fn entry_at(entries: &[Entry], i: usize) -> Entry
    requires { i < length entries.now }
    ensures { result ≡ slice_index_or entries.now i Entry.Unit }
{
    entries[i]
}

pub fn field_at(fields: &[Field], i: usize) -> Field
    requires { i < length fields.now }
    ensures { result ≡ slice_index_or fields.now i no_such }
{
    fields[i]
}

// Where a type stands at the earliest: after its parts, as each does. So types that nest are not looked for among all those within them. A record's
// fields are not gone through for it.
fn after_parts(e: Entry) -> usize
    ensures { (w n : ℕ) → (fs : List Field) → Below w n (shape fs e) → result ≤ n }
{
    match e {
        Entry::Bag(j) => j as usize + 1,
        Entry::Either(p) => p.left.max(p.right) as usize + 1,
        _ => 0,
    }
}

// Where a shape stands among entries, of which those before `from` are others.
fn find(entries: &[Entry], fields: &[Field], e: Entry, from: usize) -> Option<usize>
    requires lies { (i : ℕ) → i < length entries.now → Lies (length fields.now) (slice_index_or entries.now i Entry.Unit) }
    requires here { Lies (length fields.now) e }
    requires within { from ≤ length entries.now }
    requires before { (i : ℕ) → i < from → shape fields.now (slice_index_or entries.now i Entry.Unit) ≢ shape fields.now e }
    ensures { Found fields.now entries.now e result }
{
    for (i, x) in entries[from..].iter().enumerate() {
        if same_entry(fields, *x, e) {
            return Some(from + i);
        }
    }
    None
}

// The number of a type that is no record.
pub fn plain(names: usize, entries: &mut Vec<Entry>, fields: &[Field], e: Entry) -> u32
    requires sound { Sound names entries.old.items fields.now }
    requires plain { Lies 0 e }
    requires parts { Below names (length entries.old.items) (shape fields.now e) }
    requires room { vec_len entries.old < 16400 }
    requires cap { 16400 ≤ vec_capacity entries.old }
    ensures kept { vec_capacity entries.new ≡ vec_capacity entries.old }
    ensures made { Made names entries.old.items fields.now entries.new.items fields.now (shape fields.now e) 0 result }
{
    match find(entries, fields, e, after_parts(e)) {
        Some(i) => i as u32,
        None => {
            let r = entries.len() as u32;
            entries.push_reserved(e);
            r
        }
    }
}

// The number of the record whose fields stand last. Where there is such a record already, they are cut off again.
pub fn seal(names: usize, entries: &mut Vec<Entry>, fields: &mut Vec<Field>, start: usize) -> u32
    requires start { start ≤ length fields.old.items }
    requires sound { Sound names entries.old.items (take start fields.old.items) }
    requires parts { Rising names (length entries.old.items) 0 (drop start fields.old.items) }
    requires room { vec_len entries.old < 16400 }
    requires cap { 16400 ≤ vec_capacity entries.old }
    requires wide { vec_len fields.old ≤ 16793600 }
    ensures kept { (vec_capacity entries.new ≡ vec_capacity entries.old) × (vec_capacity fields.new ≡ vec_capacity fields.old) }
    ensures made { Made names entries.old.items (take start fields.old.items) entries.new.items fields.new.items (s_rec (drop start fields.old.items)) (length fields.old.items - start) result }
{
    let count = fields.len() - start;
    let e = Entry::Record(Run {
        start: start as u32,
        count: count as u32,
    });
    match find(entries, fields, e, 0) {
        Some(i) => {
            fields.truncate(start);
            i as u32
        }
        None => {
            let r = entries.len() as u32;
            entries.push_reserved(e);
            r
        }
    }
}

impl Table {
    pub fn entry_at(&self, i: usize) -> Entry
        requires { i < length self.now.entries.items }
        ensures { result ≡ slice_index_or self.now.entries.items i Entry.Unit }
    {
        entry_at(&self.entries, i)
    }

    pub fn field_at(&self, i: usize) -> Field
        requires { i < length self.now.fields.items }
        ensures { result ≡ slice_index_or self.now.fields.items i no_such }
    {
        field_at(&self.fields, i)
    }

    // The number of a type that is no record.
    pub fn plain(&mut self, e: Entry) -> u32
        requires plain { Lies 0 e }
        requires parts { Below self.old.names (length self.old.entries.items) (shape self.old.fields.items e) }
        requires room { vec_len self.old.entries < 16400 }
        ensures kept { Kept self.old self.new }
        ensures made { Made self.old.names self.old.entries.items self.old.fields.items self.new.entries.items self.new.fields.items (shape self.old.fields.items e) 0 result }
    {
        plain(self.names, &mut self.entries, &self.fields, e)
    }

    // The number of the record whose fields stand last. Where there is such a record already, they are cut off again.
    pub fn seal(&mut self, start: usize) -> u32
        requires start { start ≤ length self.old.fields.items }
        requires sound { Sound self.old.names self.old.entries.items (take start self.old.fields.items) }
        requires parts { Rising self.old.names (length self.old.entries.items) 0 (drop start self.old.fields.items) }
        requires room { vec_len self.old.entries < 16400 }
        requires wide { vec_len self.old.fields ≤ 16793600 }
        ensures kept { Kept self.old self.new }
        ensures made { Made self.old.names self.old.entries.items (take start self.old.fields.items) self.new.entries.items self.new.fields.items (s_rec (drop start self.old.fields.items)) (length self.old.fields.items - start) result }
    {
        seal(self.names, &mut self.entries, &mut self.fields, start)
    }
}
