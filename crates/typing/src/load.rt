// Types read from their bytes into the table. First the places of all heads are noted, from the front; then each head is made a type
// of the types that follow it, from the back. So types may nest as deep as they like.
ghost use Rattle.std.specs.Prelude.{◌≡◌, ℕ, ◌+◌, ◌<◌, ◌≤◌, List, length, drop, vec_len, vec_capacity};
ghost use Rattle.ranks.specs.Ranks.{names_of, Listed};
ghost use Rattle.types.specs.Outcomes.{look, size, Grew};
ghost use Rattle.types.specs.Operators.{NamesOf};
ghost use Rattle.typing.specs.Loads.{Headed, TypeMade, Fit, Loaded};

use crate::ranked::ranks_of;
use crate::work::Work;
use format::node::TypeNode;
use format::types::type_node;
use ranks::names::{MOST, Names};
use types::entry::{Entry, Two};
use types::table::Table;

// Notes the places of the heads of so many types; or none, where there are too many.
fn note_heads(bytes: &[u8], heads: &mut Vec<usize>, at: usize, count: usize) -> Option<()>
    requires within { at ≤ length bytes.now }
    requires cap { 8200 ≤ vec_capacity heads.old }
    requires none { vec_len heads.old ≡ 0 }
    ensures cap { 8200 ≤ vec_capacity heads.new }
    ensures headed { Headed bytes.now heads.new.items at count result }
{
    let mut end = at;
    let mut pending: u128 = count as u128;
    while pending > 0 {
        let o = type_node(&bytes[end..]).ok()?;
        if heads.len() >= MOST {
            return None;
        }
        heads.push_reserved(end);
        pending = pending - 1 + o.parts as u128;
        end += o.length;
    }
    Some(())
}

// The type of a record, by the names in its head and the numbers of its fields' types.
fn made_record(
    bytes: &[u8],
    names: &Names,
    table: &mut Table,
    numbers: &[u32],
    ranks: &mut Vec<u32>,
    at: usize,
    k: usize,
) -> Option<u32>
    requires listed { Listed bytes.now names.now }
    requires within { at ≤ length bytes.now }
    requires same { table.old.names ≡ length (names_of bytes.now names.now) }
    requires cap { 8200 ≤ vec_capacity ranks.old }
    requires numbers { NamesOf (size table.old) numbers.now }
    ensures grew { Grew table.old table.new result }
    ensures cap { 8200 ≤ vec_capacity ranks.new }
    ensures says { TypeMade bytes.now names.now table.old table.new numbers.now at (TypeNode.Record k) result }
{
    if bytes.len() - at < 5 {
        return None;
    }
    ranks_of(bytes, names, ranks, at + 5, k)?;
    let parts = numbers.get(..k)?;
    table.record(ranks.as_slice(), parts)
}

// The type of a head, by the numbers of the types that follow it.
fn made(
    bytes: &[u8],
    names: &Names,
    table: &mut Table,
    numbers: &[u32],
    ranks: &mut Vec<u32>,
    at: usize,
    node: TypeNode,
) -> Option<u32>
    requires listed { Listed bytes.now names.now }
    requires within { at ≤ length bytes.now }
    requires same { table.old.names ≡ length (names_of bytes.now names.now) }
    requires cap { 8200 ≤ vec_capacity ranks.old }
    requires numbers { NamesOf (size table.old) numbers.now }
    ensures grew { Grew table.old table.new result }
    ensures cap { 8200 ≤ vec_capacity ranks.new }
    ensures says { TypeMade bytes.now names.now table.old table.new numbers.now at node result }
{
    match node {
        TypeNode::Nothing => table.make(Entry::Unit),
        TypeNode::Number => table.make(Entry::Num),
        TypeNode::Truth => table.make(Entry::Truth),
        TypeNode::Text => table.make(Entry::Text),
        TypeNode::Bag => {
            let [x, ..] = numbers else {
                return None;
            };
            table.make(Entry::Bag(*x))
        }
        TypeNode::Either => {
            let [x, y, ..] = numbers else {
                return None;
            };
            table.make(Entry::Either(Two {
                left: *x,
                right: *y,
            }))
        }
        TypeNode::Record(k) => made_record(bytes, names, table, numbers, ranks, at, k),
    }
}

// Reads so many types into the table, so that their numbers are on the stack; none where a record's names are not in order.
pub fn load(
    bytes: &[u8],
    names: &Names,
    table: &mut Table,
    work: &mut Work,
    at: usize,
    count: usize,
) -> Option<()>
    requires listed { Listed bytes.now names.now }
    requires within { at ≤ length bytes.now }
    requires same { table.old.names ≡ length (names_of bytes.now names.now) }
    requires fit { Fit work.old }
    ensures { Loaded bytes.now names.now table.old table.new work.new at count result }
{
    work.heads.clear();
    note_heads(bytes, &mut work.heads, at, count)?;
    work.stack.clear();
    while let Some(p) = work.heads.pop() {
        let o = type_node(&bytes[p..]).ok()?;
        let x = made(
            bytes,
            names,
            table,
            work.stack.numbers(),
            &mut work.ranks,
            p,
            o.head,
        )?;
        work.stack.put(o.parts, x)?;
    }
    Some(())
}
