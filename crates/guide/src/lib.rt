// A guide to a query's bytes: written once over all of them, it lets each query in them be visited without scanning what stands before its parts.
#![tactic(auto)]

ghost use Rattle.guide.specs.Marks.{Marked, Noted};
ghost use Rattle.guide.specs.Visits.{Visited};

use format::name::read_name;
use format::node::{QueryNode, Unary};
use format::number::read_u32;
use format::queries::{plain_node, query_node};

// A query as it was found: what stands in front of it, and where its first part begins.
#[derive(Clone, Copy)]
pub struct Visit {
    pub node: QueryNode,
    pub first: usize,
}

// Notes in the guide where a last part begins, and hands on where the query ends; a number that does not fit is not noted.
fn note(guide: &mut [u32], at: usize, last: usize, end: usize) -> Option<usize>
    ensures { Noted guide.old guide.new at last end result }
{
    if at >= guide.len() {
        return None;
    }
    guide[at] = u32::try_from(last).ok()?;
    Some(end)
}

// Writes the guide for the query in front, whose place is `at`, and returns how many bytes the query has.
// Each nesting takes one off the limit, so that bytes nested too deep are given up before they use up the stack.
pub fn mark(query: &[u8], guide: &mut [u32], at: usize, limit: usize) -> Option<usize>
    ensures { Marked query.now guide.old guide.new at limit result }
{
    if limit == 0 || at >= guide.len() {
        return None;
    }
    let o = query_node(query).ok()?;
    let first = o.length;
    match o.parts {
        0 => match o.head {
            QueryNode::Just(t) => note(guide, at, 1 + t, first),
            _ => Some(first),
        },
        1 => {
            let m = mark(&query[first..], guide, at + first, limit - 1)?;
            note(guide, at, first, first + m)
        }
        _ => {
            let m = mark(&query[first..], guide, at + first, limit - 1)?;
            let last = first + m;
            let n = mark(&query[last..], guide, at + last, limit - 1)?;
            note(guide, at, last, last + n)
        }
    }
}

// The node in front, in a fixed number of steps: nothing before the parts is scanned, since the guide's number `last` says how long it is.
pub fn node(query: &[u8], last: usize) -> Option<Visit>
    ensures { Visited query.now last result }
{
    if query.len() == 0 {
        return None;
    }
    let rest = &query[1..];
    let (node, first) = match query[0] {
        0 => (QueryNode::Table(read_u32(rest).ok()?), 0),
        1 => (QueryNode::It, 0),
        2 => (QueryNode::Env, 0),
        3 => (QueryNode::Just(last.saturating_sub(1)), 1),
        18 => (QueryNode::One(Unary::Dot(read_u32(rest).ok()?)), last),
        19 => (QueryNode::One(Unary::AsField(read_u32(rest).ok()?)), last),
        20 => (QueryNode::One(Unary::Without(read_u32(rest).ok()?)), last),
        21 => (QueryNode::One(Unary::Only(read_u32(rest).ok()?)), last),
        25 => {
            // the second name is not read, but only told by its length
            let m = read_name(rest).ok()?;
            let n = read_u32(&rest[4 + m..]).ok()?;
            (QueryNode::Matched(m, n), 1 + (4 + m + (4 + n)))
        }
        27 => (QueryNode::OnLeft(last.saturating_sub(1)), last),
        28 => (QueryNode::OnRight(last.saturating_sub(1)), last),
        tag => (plain_node(tag)?, 1),
    };
    Some(Visit { node, first })
}
