// Types of what stands in a query besides its queries: written types, and operators with names.
ghost use Rattle.std.specs.Prelude.{◌≡◌, ℕ, ◌+◌, ◌<◌, ◌≤◌, List, [], length, vec_len, vec_capacity, slice_index};
ghost use Rattle.ranks.specs.Ranks.{names_of, Listed, RankOf};
ghost use Rattle.types.specs.Outcomes.{look, size, Grew};
ghost use Rattle.typing.specs.Loads.{Fit};
ghost use Rattle.typing.specs.Typed.{TypeTold, NameTold, OpTold, DatumTold, MatchedTold};

use crate::load::load;
use crate::ranked::ranks_of;
use crate::work::Work;
use format::node::Unary;
use of_type::is_of;
use ranks::names::{Names, rank};
use types::table::Table;

// The number of a type that is written out, if it is sound.
pub fn one_type(
    bytes: &[u8],
    names: &Names,
    table: &mut Table,
    work: &mut Work,
    at: usize,
) -> Option<u32>
    requires listed { Listed bytes.now names.now }
    requires same { table.old.names ≡ length (names_of bytes.now names.now) }
    requires fit { Fit work.old }
    ensures grew { Grew table.old table.new result }
    ensures fit { Fit work.new }
    ensures told { TypeTold bytes.now names.now table.old table.new at result }
{
    if at > bytes.len() {
        return None;
    }
    load(bytes, names, table, work, at, 1)?;
    let x = work.stack.numbers().first()?;
    Some(*x)
}

// The rank of a name of so many bytes, which stands after its length.
fn name_at(bytes: &[u8], names: &Names, at: usize, n: usize) -> Option<u32>
    requires listed { Listed bytes.now names.now }
    ensures { NameTold bytes.now names.now at n result }
{
    let start = at.checked_add(4)?;
    let name = bytes.get(start..)?.get(..n)?;
    rank(bytes, names, name)
}

// The type of an operator of one.
pub fn unary(
    bytes: &[u8],
    names: &Names,
    table: &mut Table,
    ranks: &mut Vec<u32>,
    at: usize,
    o: Unary,
    x: u32,
) -> Option<u32>
    requires listed { Listed bytes.now names.now }
    requires same { table.old.names ≡ length (names_of bytes.now names.now) }
    requires cap { 8200 ≤ vec_capacity ranks.old }
    requires place { at < length bytes.now }
    requires within { x < size table.old }
    ensures grew { Grew table.old table.new result }
    ensures cap { 8200 ≤ vec_capacity ranks.new }
    ensures told { OpTold bytes.now names.now table.old table.new at o x result }
{
    match o {
        Unary::Dot(n) => {
            let k = name_at(bytes, names, at + 1, n)?;
            table.dot(k, x)
        }
        Unary::AsField(n) => {
            let k = name_at(bytes, names, at + 1, n)?;
            table.as_field(k, x)
        }
        Unary::Without(n) => {
            let k = name_at(bytes, names, at + 1, n)?;
            table.without(k, x)
        }
        Unary::Only(n) => {
            if bytes.len() - at < 5 {
                return None;
            }
            ranks_of(bytes, names, ranks, at + 5, n)?;
            table.only(ranks.as_slice(), x)
        }
        _ => table.one(o, x),
    }
}

// The type of a datum that is written out after its type, if the type is sound and the datum is of it.
pub fn written(
    bytes: &[u8],
    names: &Names,
    table: &mut Table,
    work: &mut Work,
    at: usize,
    datum_at: usize,
) -> Option<u32>
    requires listed { Listed bytes.now names.now }
    requires same { table.old.names ≡ length (names_of bytes.now names.now) }
    requires fit { Fit work.old }
    requires within { at ≤ length bytes.now }
    requires datum { datum_at ≤ length bytes.now }
    ensures grew { Grew table.old table.new result }
    ensures fit { Fit work.new }
    ensures told { DatumTold bytes.now names.now table.old table.new at datum_at result }
{
    let x = one_type(bytes, names, table, work, at)?;
    is_of(&bytes[datum_at..], &bytes[at..], 8192)?;
    Some(x)
}

// The type of a matching, by the names that stand at a place.
pub fn matched_at(
    bytes: &[u8],
    names: &Names,
    table: &mut Table,
    at: usize,
    j: usize,
    k: usize,
    x: u32,
    y: u32,
) -> Option<u32>
    requires listed { Listed bytes.now names.now }
    requires same { table.old.names ≡ length (names_of bytes.now names.now) }
    requires place { at < length bytes.now }
    requires first { x < size table.old }
    requires second { y < size table.old }
    ensures grew { Grew table.old table.new result }
    ensures told { MatchedTold bytes.now names.now table.old table.new at j k x y result }
{
    let m = name_at(bytes, names, at + 1, j)?;
    let rest = bytes.len() - at;
    if rest < 5 || rest - 5 < j {
        return None;
    }
    let n = name_at(bytes, names, at + 1 + (4 + j), k)?;
    table.matched(m, n, x, y)
}
