// How many parts a query has that stands in front of bytes.
ghost use Rattle.std.specs.Prelude.{suc, true};
ghost use Rattle.query.specs.Size.{size_1, size_q};
ghost use Rattle.format.specs.Wire.{queries as all_queries};
ghost use Rattle.format.specs.Heads.{query_heads};
ghost use Rattle.format.specs.Nodes.{IsOp1, TellsQuery};
ghost use Rattle.parts.specs.Counts.{CountedInFront};
ghost use Rattle.parts.specs.Heads.{operators, written_out, written_size, own_q, Weighs, Weighed};

use crate::counted::Counted;
use crate::data::data_parts;
use crate::measured::{Front, Measured, measure};
use crate::names::{names_parts, no_more};
use crate::types::type_parts;
use format::node::{QueryNode, Unary};
use format::queries::{Queries, query_node};

// An operator by a name counts one, and each byte of the name.
fn named_parts(name_length: usize, limit: usize) -> Option<usize>
    ensures { Weighs limit (suc name_length) result }
{
    if name_length >= limit {
        return None;
    }
    Some(1 + name_length)
}

// What an operator on one thing counts: one, and its names. The bytes are those after the tag.
fn unary_parts(bytes: &[u8], op: Unary, limit: usize) -> Option<usize>
    ensures { Weighed operators IsOp1 size_1 limit bytes.now op result }
{
    match op {
        Unary::Dot(n) | Unary::AsField(n) | Unary::Without(n) => named_parts(n, limit),
        Unary::Only(_) => {
            if limit == 0 {
                return None;
            }
            let names = names_parts(bytes, limit - 1)?;
            Some(1 + names.parts)
        }
        _ => named_parts(0, limit),
    }
}

// What is written out in a query counts its type and its datum.
fn just_parts(bytes: &[u8], limit: usize) -> Option<Counted>
    ensures { CountedInFront written_out written_size limit bytes.now result }
{
    let typed = type_parts(bytes, limit)?;
    let end = typed.length;
    let datum = data_parts(&bytes[end..], limit - typed.parts)?;
    Some(Counted {
        parts: typed.parts + datum.parts,
        length: end + datum.length,
    })
}

// What the head of a query counts of its own: names, operators, types and data. The bytes are those after the tag.
fn own_parts(bytes: &[u8], node: QueryNode, limit: usize) -> Option<usize>
    ensures { Weighed query_heads TellsQuery own_q limit bytes.now node result }
{
    match node {
        QueryNode::Just(_) => {
            let written = just_parts(bytes, limit)?;
            Some(written.parts)
        }
        QueryNode::One(op) => unary_parts(bytes, op, limit),
        QueryNode::Matched(m, n) => {
            let first = no_more(m, limit)?;
            let second = no_more(n, limit - first)?;
            Some(first + second)
        }
        QueryNode::OnLeft(_) | QueryNode::OnRight(_) => {
            let other = type_parts(bytes, limit)?;
            Some(other.parts)
        }
        _ => Some(0),
    }
}

impl Measured for Queries {
    ghost coding = { all_queries };

    ghost size = { size_q };

    ghost holds = { λ _. true };

    fn front(bytes: &[u8], limit: usize) -> Option<Front> {
        if limit == 0 {
            return None;
        }
        let o = query_node(bytes).ok()?;
        let own = own_parts(&bytes[1..], o.head, limit - 1)?;
        Some(Front {
            own: 1 + own,
            after: o.parts,
            length: o.length,
        })
    }
}

// The parts and the bytes of the query in front, or nothing if it has more parts than the limit.
pub fn query_parts(bytes: &[u8], limit: usize) -> Option<Counted>
    ensures { CountedInFront all_queries size_q limit bytes.now result }
{
    measure::<Queries>(bytes, 1, limit)
}
