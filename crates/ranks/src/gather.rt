// The names that stand in types and in a query, put among the others.
ghost use Rattle.std.specs.Prelude.{◌≡◌, ℕ, ◌+◌, ◌<◌, ◌≤◌, List, [], length, vec_len, vec_capacity};
ghost use Rattle.query.specs.Data.{Name};
ghost use Rattle.ranks.specs.Ranks.{In, names_of, Listed};
ghost use Rattle.ranks.specs.Known.{Kept, NamesTaken, TypesTaken, HeadTaken, QueryHeadTaken, QueryTaken, Named, OpTaken, Gathered};
ghost use Rattle.ranks.specs.Naming.{QueriesTaken, NamedLaws};
ghost use Rattle.ranks.specs.declared.names.Names.{Names};
ghost use Rattle.ranks.specs.TypeLaws.{types_named};
ghost use Rattle.ranks.specs.QueryLaws.{queries_named};

use crate::names::{Names, Place, put};
use format::name::read_name;
use format::node::{QueryNode, TypeNode, Unary};
use format::queries::Queries;
use format::sort::Sort;
use format::types::Types;

// So many names that stand one after the other.
fn put_names(bytes: &[u8], names: &mut Names, at: usize, count: usize)
    requires listed { Listed bytes.now names.old }
    requires within { at ≤ length bytes.now }
    ensures kept { Kept bytes.now names.old names.new }
    ensures taken { NamesTaken bytes.now names.old names.new at count }
{
    let mut pos = at;
    for i in 0..count {
        let Ok(n) = read_name(&bytes[pos..]) else {
            return;
        };
        put(bytes, names, pos + 4, n);
        pos += 4 + n;
    }
}

// So many names after a tag and their count.
fn counted_names(bytes: &[u8], names: &mut Names, at: usize, count: usize)
    requires listed { Listed bytes.now names.old }
    requires within { at ≤ length bytes.now }
    ensures kept { Kept bytes.now names.old names.new }
    ensures taken { at + 5 ≤ length bytes.now → NamesTaken bytes.now names.old names.new (at + 5) count }
{
    if bytes.len() - at >= 5 {
        put_names(bytes, names, at + 5, count);
    }
}

// A sort of thing with names in its heads.
trait HasNames: Sort {
    // that the names in a head that stands at a place were put
    ghost taken: { List ℕ → Names → Names → ℕ → Self.Head → Type 0 };

    // that the names in so many things that stand from a place on were put
    ghost run: { List ℕ → Names → Names → ℕ → ℕ → Type 0 };

    fn head_names(bytes: &[u8], names: &mut Names, at: usize, head: Self::Head)
        requires listed { Listed bytes.now names.old }
        requires within { at < length bytes.now }
        ensures kept { Kept bytes.now names.old names.new }
        ensures taken { taken bytes.now names.old names.new at head };

    ghost laws: { NamedLaws Self.Sort.coding Self.Sort.told taken run };
}

// The names in so many things that stand one after the other, by one loop with a count of what is still to come.
fn run_names<S: HasNames>(bytes: &[u8], names: &mut Names, at: usize, count: usize)
    requires listed { Listed bytes.now names.old }
    requires within { at ≤ length bytes.now }
    ensures kept { Kept bytes.now names.old names.new }
    ensures taken { S.run bytes.now names.old names.new at count }
{
    let mut end = at;
    let mut pending: u128 = count as u128;
    while pending > 0 {
        let Ok(o) = S::head(&bytes[end..]) else {
            return;
        };
        S::head_names(bytes, names, end, o.head);
        pending = pending - 1 + o.parts as u128;
        end += o.length;
    }
}

impl HasNames for Types {
    ghost taken = { HeadTaken };

    ghost run = { TypesTaken };

    ghost laws = { types_named };

    // The names in the head of a type, which is a record's if there are any.
    fn head_names(bytes: &[u8], names: &mut Names, at: usize, head: TypeNode) {
        if let TypeNode::Record(k) = head {
            counted_names(bytes, names, at, k);
        }
    }
}

// The names in so many types that stand one after the other.
pub fn type_names(bytes: &[u8], names: &mut Names, at: usize, count: usize)
    requires listed { Listed bytes.now names.old }
    requires within { at ≤ length bytes.now }
    ensures kept { Kept bytes.now names.old names.new }
    ensures taken { TypesTaken bytes.now names.old names.new at count }
{
    run_names::<Types>(bytes, names, at, count);
}

// One name, with its length in front of it; and where it ends.
fn named(bytes: &[u8], names: &mut Names, at: usize, n: usize) -> usize
    requires listed { Listed bytes.now names.old }
    requires within { at ≤ length bytes.now }
    ensures { Named bytes.now names.old names.new at n result }
{
    let rest = bytes.len() - at;
    if rest < 4 || rest - 4 < n {
        return at;
    }
    put(bytes, names, at + 4, n);
    at + (4 + n)
}

// The names of an operator of one.
fn op_names(bytes: &[u8], names: &mut Names, at: usize, o: Unary)
    requires listed { Listed bytes.now names.old }
    requires within { at < length bytes.now }
    ensures kept { Kept bytes.now names.old names.new }
    ensures taken { OpTaken bytes.now names.old names.new at o }
{
    match o {
        Unary::Dot(n) | Unary::AsField(n) | Unary::Without(n) => {
            named(bytes, names, at + 1, n);
        }
        Unary::Only(k) => counted_names(bytes, names, at, k),
        _ => {}
    }
}

impl HasNames for Queries {
    ghost taken = { QueryHeadTaken };

    ghost run = { QueriesTaken };

    ghost laws = { queries_named };

    // The names in the head of a query: of the type that follows its tag, of its operator, or its own two.
    fn head_names(bytes: &[u8], names: &mut Names, at: usize, head: QueryNode) {
        match head {
            QueryNode::Just(_) | QueryNode::OnLeft(_) | QueryNode::OnRight(_) => {
                type_names(bytes, names, at + 1, 1)
            }
            QueryNode::One(o) => op_names(bytes, names, at, o),
            QueryNode::Matched(m, n) => {
                let end = named(bytes, names, at + 1, m);
                named(bytes, names, end, n);
            }
            _ => {}
        }
    }
}

// The names in a query.
pub fn query_names(bytes: &[u8], names: &mut Names, at: usize)
    requires listed { Listed bytes.now names.old }
    requires within { at ≤ length bytes.now }
    ensures kept { Kept bytes.now names.old names.new }
    ensures taken { QueryTaken bytes.now names.old names.new at }
{
    run_names::<Queries>(bytes, names, at, 1);
}

// Begins anew, with the name of no bytes alone: it then counts for none where it stands.
fn begin(bytes: &[u8], names: &mut Names)
    requires { 8200 ≤ vec_capacity names.old.places }
    ensures listed { Listed bytes.now names.new }
    ensures there { In (names_of bytes.now names.new) [] }
    ensures alone { length (names_of bytes.now names.new) ≡ 1 }
{
    names.places.clear();
    names.places.push_reserved(Place {
        start: 0,
        length: 0,
    });
}

// All names of a schema of so many types and of a query, each once and in order.
pub fn request_names(
    bytes: &[u8],
    names: &mut Names,
    schema_at: usize,
    types: usize,
    query_at: usize,
)
    requires { 8200 ≤ vec_capacity names.old.places }
    ensures { Gathered bytes.now names.new schema_at types query_at }
{
    begin(bytes, names);
    if schema_at > bytes.len() {
        return;
    }
    type_names(bytes, names, schema_at, types);
    if query_at > bytes.len() {
        return;
    }
    query_names(bytes, names, query_at);
}
