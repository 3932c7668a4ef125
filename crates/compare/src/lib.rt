// Which of two values comes first: by kind, then by what they hold, left before right. A value holds one datum only, so two values whose parts
// lie at one place are alike, and comparing them ends at once.
#![tactic(auto)]

ghost use Rattle.std.specs.Prelude.{◌≡◌, ◌+◌, ◌-◌, ◌^◌, min, MatchOption, ◌<◌, length};
ghost use Rattle.std.specs.Bool.{Decides};
ghost use Rattle.values.specs.Memory.{Spelled};
ghost use Rattle.values.specs.Lent.{words};
ghost use Rattle.compare.specs.Compare.{kind_of, OrdersTexts, MatchesTexts, Orders, Matches, OrdersBags, OrdersRecords, OrdersSides, FlatWay};

use std::cmp::Ordering;
use values::row::Row;
use values::value::{Field, Place, Value};

// The kinds of values, in their order.
#[derive(Clone, Copy, PartialEq, Eq, PartialOrd, Ord)]
enum Kind {
    Nothing,
    Number,
    Truth,
    Text,
    Bag,
    Record,
    Left,
    Right,
}

impl From<Value> for Kind {
    ghost from_gives = { λ v k. k ≡ kind_of v };

    fn from(value: Value) -> Kind {
        match value {
            Value::Nothing => Kind::Nothing,
            Value::Number(_) => Kind::Number,
            Value::Truth(_) => Kind::Truth,
            Value::Text(_) => Kind::Text,
            Value::Bag(_) => Kind::Bag,
            Value::Record(_) => Kind::Record,
            Value::Left(_) => Kind::Left,
            Value::Right(_) => Kind::Right,
        }
    }
}

// The bytes of a name or a text, if they are all there.
#[inline(always)]
fn spelled(bytes: &[u8], p: Place) -> Option<&[u8]>
    ensures { MatchOption result (length bytes.now < p.start + p.count) (λ t. Spelled bytes.now t.now p.start p.count) }
{
    bytes.get(p.start..)?.get(..p.count)
}

// Which of two names or texts comes first. A place that goes past the bytes' end is no text's, so there any outcome does.
#[inline(always)]
pub fn name_way(bytes: &[u8], a: Place, b: Place) -> Ordering
    ensures { OrdersTexts bytes.now a b result }
{
    if a == b {
        return Ordering::Equal;
    }
    match (spelled(bytes, a), spelled(bytes, b)) {
        (Some(x), Some(y)) => x.cmp(y),
        _ => Ordering::Equal,
    }
}

// Whether bytes are the same. Names of one length that differ mostly do in their last byte, and to look at that alone costs less than to begin to go
// through all.
#[inline(always)]
fn same_bytes(x: &[u8], y: &[u8]) -> bool
    ensures { Decides result (x.now ≡ y.now) }
{
    let n = x.len();
    if n != y.len() {
        return false;
    }
    if n == 0 {
        return true;
    }
    x[n - 1] == y[n - 1] && x == y
}

// Whether two names are the same, whichever of them comes first.
#[inline(always)]
pub fn same_name(bytes: &[u8], a: Place, b: Place) -> bool
    ensures { MatchesTexts bytes.now a b result }
{
    if a == b {
        return true;
    }
    match (spelled(bytes, a), spelled(bytes, b)) {
        (Some(x), Some(y)) => same_bytes(x, y),
        _ => true,
    }
}

// Two values of which no parts are to be compared. This is no part of what calls itself: there each part within a part takes its share of the
// stack, so the less is done there the better.
fn flat(bytes: &[u8], a: Value, b: Value) -> Ordering
    ensures { FlatWay bytes.now a b result }
{
    match (a, b) {
        (Value::Number(x), Value::Number(y)) => x.cmp(&y),
        (Value::Truth(x), Value::Truth(y)) => x.cmp(&y),
        (Value::Text(p), Value::Text(q)) => name_way(bytes, p, q),
        _ => Kind::from(a).cmp(&Kind::from(b)),
    }
}

// Which of two values' data comes first. The first datum nests no deeper than `depth`, which falls with each part within a part; so where it is 0
// there are no parts, and any outcome does.
#[cycle(bags_records_sides_which_first)]
pub fn which_first(bytes: &[u8], row: &Row, a: Value, b: Value, depth: usize) -> Ordering
    ensures { Orders bytes.now (words row.now) a b depth result }
{
    if a == b {
        return Ordering::Equal;
    }
    let Some(deep) = depth.checked_sub(1) else {
        return flat(bytes, a, b);
    };
    match (a, b) {
        (Value::Bag(p), Value::Bag(q)) => bags(bytes, row, p, q, deep),
        (Value::Record(p), Value::Record(q)) => records(bytes, row, p, q, deep),
        (Value::Left(i), Value::Left(j)) => sides(bytes, row, i, j, deep),
        (Value::Right(i), Value::Right(j)) => sides(bytes, row, i, j, deep),
        _ => flat(bytes, a, b),
    }
}

// What is on the sides of two eithers. Where no slot lies there is nothing, and no value has such a part.
#[cycle(bags_records_sides_which_first)]
fn sides(bytes: &[u8], row: &Row, i: usize, j: usize, depth: usize) -> Ordering
    ensures { OrdersSides bytes.now (words row.now) i j depth result }
{
    match (row.find(i), row.find(j)) {
        (Some(x), Some(y)) => which_first(bytes, row, x, y, depth),
        _ => Ordering::Equal,
    }
}

// Thing by thing. Only where one bag has ended does the count matter.
#[cycle(bags_records_sides_which_first)]
fn bags(bytes: &[u8], row: &Row, p: Place, q: Place, depth: usize) -> Ordering
    ensures { OrdersBags bytes.now (words row.now) p q depth result }
{
    if !row.holds::<Value>(p) || !row.holds::<Value>(q) {
        return Ordering::Equal;
    }
    for i in 0..p.count.min(q.count) {
        let x = row.nth(p.start, i);
        let y = row.nth(q.start, i);
        let o = which_first(bytes, row, x, y, depth);
        if o.is_ne() {
            return o;
        }
    }
    p.count.cmp(&q.count)
}

// Field by field: the name, then what it holds. Only where one record has ended does the count matter. It is no one function with `bags`, since
// functions that call one another all have the same type parameters.
#[cycle(bags_records_sides_which_first)]
fn records(bytes: &[u8], row: &Row, p: Place, q: Place, depth: usize) -> Ordering
    ensures { OrdersRecords bytes.now (words row.now) p q depth result }
{
    if !row.holds::<Field>(p) || !row.holds::<Field>(q) {
        return Ordering::Equal;
    }
    for i in 0..p.count.min(q.count) {
        let f = row.nth::<Field>(p.start, i);
        let g = row.nth::<Field>(q.start, i);
        let named = name_way(bytes, f.name, g.name);
        if named.is_ne() {
            return named;
        }
        let o = which_first(bytes, row, f.value, g.value, depth);
        if o.is_ne() {
            return o;
        }
    }
    p.count.cmp(&q.count)
}

// Whether two values' data are the same: then neither comes first.
pub fn same(bytes: &[u8], row: &Row, a: Value, b: Value, depth: usize) -> bool
    ensures { Matches bytes.now (words row.now) a b depth result }
{
    which_first(bytes, row, a, b, depth).is_eq()
}

// The same as `which_first`, and how many comparisons there were, now one more. What is compared within one is not counted.
pub fn compare_counted(
    bytes: &[u8],
    row: &Row,
    a: Value,
    b: Value,
    depth: usize,
    count: u64,
) -> (Ordering, u64)
    ensures found { Orders bytes.now (words row.now) a b depth result.0 }
    ensures counted { result.1 ≡ min (count + 1) (2 ^ 64 - 1) }
{
    (
        which_first(bytes, row, a, b, depth),
        count.saturating_add(1),
    )
}

// The same as `same`, with that count.
pub fn same_counted(
    bytes: &[u8],
    row: &Row,
    a: Value,
    b: Value,
    depth: usize,
    count: u64,
) -> (bool, u64)
    ensures found { Matches bytes.now (words row.now) a b depth result.0 }
    ensures counted { result.1 ≡ min (count + 1) (2 ^ 64 - 1) }
{
    (same(bytes, row, a, b, depth), count.saturating_add(1))
}
