// Queries as a sort: what stands in front of them.
ghost use Rattle.std.specs.Prelude.{◌≡◌, ℕ, ◌+◌, length, MatchOption, MatchResult};
ghost use Rattle.format.specs.Coding.{both_of, name};
ghost use Rattle.format.specs.Wire.{write_ty, types, data_of, queries};
ghost use Rattle.format.specs.Heads.{query_heads, query_arity};
ghost use Rattle.format.specs.Nodes.{NodeRead, TellsQuery, PlainHead, NotOperator, NotPlain};
ghost use Rattle.format.specs.Reading.{ReadAs, Stuck};
ghost use Rattle.format.specs.Trees.{inhabited, tree_way};
ghost use Rattle.format.specs.QueryLaws.{query_laws};

use crate::data::{Data, Names};
use crate::name::read_name;
use crate::node::{Binary, QueryNode, Unary};
use crate::number::read_u32;
use crate::sort::{Opening, Sort, scan, scan_counted};
use crate::types::Types;

pub struct Queries;

impl Sort for Queries {
    type Head = QueryNode;

    ghost coding = { queries };

    ghost told = { λ n xs e. ReadAs query_heads xs e (TellsQuery n) };

    ghost some = { inhabited queries query_heads query_arity query_laws };

    ghost unique = { tree_way queries query_heads query_arity query_laws };

    fn head(bytes: &[u8]) -> Result<Opening<QueryNode>, usize> {
        query_node(bytes)
    }
}

// The nodes of operators on one or two things that have no name.
#[tactic(auto, unfolding(crate::specs::Heads::write_query_head, crate::specs::Heads::FitsQueryHead, crate::specs::Wire::tag_2, crate::specs::Wire::write_1, crate::specs::Wire::Fits1))]
fn operator_node(tag: u8) -> Option<QueryNode>
    ensures { MatchOption result (NotOperator tag) (λ node. PlainHead tag node) }
{
    match tag {
        4 => Some(QueryNode::Two(Binary::Equal)),
        5 => Some(QueryNode::Two(Binary::And)),
        6 => Some(QueryNode::Two(Binary::Or)),
        7 => Some(QueryNode::Two(Binary::Plus)),
        8 => Some(QueryNode::Two(Binary::Less)),
        9 => Some(QueryNode::Two(Binary::JoinBags)),
        10 => Some(QueryNode::Two(Binary::JoinRecords)),
        11 => Some(QueryNode::Two(Binary::Within)),
        12 => Some(QueryNode::One(Unary::Not)),
        13 => Some(QueryNode::One(Unary::InBag)),
        14 => Some(QueryNode::One(Unary::Flat)),
        15 => Some(QueryNode::One(Unary::Count)),
        16 => Some(QueryNode::One(Unary::Sum)),
        17 => Some(QueryNode::One(Unary::Distinct)),
        _ => None,
    }
}

// The nodes of which nothing follows the tag but parts.
#[tactic(auto, unfolding(crate::specs::Heads::write_query_head, crate::specs::Heads::FitsQueryHead))]
pub fn plain_node(tag: u8) -> Option<QueryNode>
    ensures { MatchOption result (NotPlain tag) (λ node. PlainHead tag node) }
{
    match tag {
        1 => Some(QueryNode::It),
        2 => Some(QueryNode::Env),
        22 => Some(QueryNode::Each),
        23 => Some(QueryNode::Keep),
        24 => Some(QueryNode::Product),
        26 => Some(QueryNode::Default),
        29 => Some(QueryNode::Either),
        30 => Some(QueryNode::Then),
        31 => Some(QueryNode::WithEnv),
        _ => operator_node(tag),
    }
}

// Two names, one after the other: how many bytes each has after its length.
fn two_names(bytes: &[u8]) -> Result<(usize, usize), usize>
    ensures { MatchResult result (λ g. ReadAs (both_of name name) bytes.now (4 + g.0 + (4 + g.1)) (λ p. (length p.0 ≡ g.0) × (length p.1 ≡ g.1))) (λ p. Stuck (both_of name name) bytes.now p) }
{
    let m = read_name(bytes)?;
    let n = read_name(&bytes[4 + m..]).map_err(|p| 4 + m + p)?;
    Ok((m, n))
}

// A type and a datum: how many bytes each has.
fn typed_datum(bytes: &[u8]) -> Result<(usize, usize), usize>
    ensures { MatchResult result (λ g. ReadAs (both_of types data_of) bytes.now (g.0 + g.1) (λ p. length (write_ty p.0) ≡ g.0)) (λ p. Stuck (both_of types data_of) bytes.now p) }
{
    let t = scan::<Types>(bytes, 1)?;
    let d = scan::<Data>(&bytes[t..], 1).map_err(|p| t + p)?;
    Ok((t, d))
}

// The node of the query in front, and how many bytes stand before its parts.
#[tactic(auto, using(crate::specs::QueryLaws::query_no_tag, crate::specs::QueryLaws::query_empty, crate::specs::QueryLaws::plain_read))]
fn query_head(bytes: &[u8]) -> Result<(QueryNode, usize), usize>
    ensures { MatchResult result (λ g. ReadAs query_heads bytes.now g.1 (TellsQuery g.0)) (λ p. Stuck query_heads bytes.now p) }
{
    if bytes.len() == 0 {
        return Err(0);
    }
    let rest = &bytes[1..];
    match bytes[0] {
        0 => {
            let n = read_u32(rest).map_err(|p| 1 + p)?;
            Ok((QueryNode::Table(n), 5))
        }
        3 => {
            let (t, d) = typed_datum(rest).map_err(|p| 1 + p)?;
            Ok((QueryNode::Just(t), 1 + (t + d)))
        }
        18 => {
            let n = read_name(rest).map_err(|p| 1 + p)?;
            Ok((QueryNode::One(Unary::Dot(n)), 5 + n))
        }
        19 => {
            let n = read_name(rest).map_err(|p| 1 + p)?;
            Ok((QueryNode::One(Unary::AsField(n)), 5 + n))
        }
        20 => {
            let n = read_name(rest).map_err(|p| 1 + p)?;
            Ok((QueryNode::One(Unary::Without(n)), 5 + n))
        }
        21 => {
            let names = scan_counted::<Names>(rest).map_err(|p| 1 + p)?;
            Ok((QueryNode::One(Unary::Only(names.count)), 1 + names.length))
        }
        25 => {
            let (m, n) = two_names(rest).map_err(|p| 1 + p)?;
            Ok((QueryNode::Matched(m, n), 1 + (4 + m + (4 + n))))
        }
        27 => {
            let t = scan::<Types>(rest, 1).map_err(|p| 1 + p)?;
            Ok((QueryNode::OnLeft(t), 1 + t))
        }
        28 => {
            let t = scan::<Types>(rest, 1).map_err(|p| 1 + p)?;
            Ok((QueryNode::OnRight(t), 1 + t))
        }
        tag => Ok((plain_node(tag).ok_or(0usize)?, 1)),
    }
}

// What stands in front of a query.
pub fn query_node(bytes: &[u8]) -> Result<Opening<QueryNode>, usize>
    ensures { MatchResult result (λ o. NodeRead query_heads query_arity TellsQuery bytes.now o.head o.parts o.length) (λ p. Stuck query_heads bytes.now p) }
{
    let (head, length) = query_head(bytes)?;
    Ok(Opening {
        head,
        parts: head.parts(),
        length,
    })
}
