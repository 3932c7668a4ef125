// Requests as a sort: what they ask, and where the parts of that stand.
ghost use Rattle.std.specs.Prelude.{◌≡◌, ℕ, ◌+◌, List, MatchResult};
ghost use Rattle.format.specs.Wire.{queries, requests};
ghost use Rattle.format.specs.Nodes.{TellsRequest, ask_tail, ask_load, plan_load, AsksFor, PlansFor, Stands, Requested};
ghost use Rattle.format.specs.Reading.{ReadAs, Stuck, Garbled};
ghost use Rattle.format.specs.Trees.{inhabited};
ghost use Rattle.format.specs.NameLaws.{no_parts};
ghost use Rattle.format.specs.RequestLaws.{request_laws, requests_way};

use crate::data::Data;
use crate::node::{Ask, Plan, Request};
use crate::number::read_u64;
use crate::queries::Queries;
use crate::sort::{Opening, Sort, scan, scan_counted, whole};
use crate::types::Types;

pub struct Requests;

impl Sort for Requests {
    type Head = Request;

    ghost coding = { requests };

    ghost told = { λ n xs e. ReadAs requests xs e (TellsRequest xs n) };

    ghost some = { inhabited requests requests (no_parts requests) request_laws };

    ghost unique = { requests_way };

    fn head(bytes: &[u8]) -> Result<Opening<Request>, usize> {
        let (head, length) = request_node(bytes)?;
        Ok(Opening {
            head,
            parts: 0,
            length,
        })
    }
}

// A query and how much work at most: how many bytes the query has, and that number.
fn query_and_work(bytes: &[u8]) -> Result<(usize, u64), usize>
    ensures { MatchResult result (λ g. ReadAs ask_tail bytes.now (g.0 + 8) (λ l. Stands queries bytes.now 0 l.0 × (g.1 ≡ l.1))) (λ p. Stuck ask_tail bytes.now p) }
{
    let length = scan::<Queries>(bytes, 1)?;
    let work = read_u64(&bytes[length..]).map_err(|p| length + p)?;
    Ok((length, work))
}

// What follows the tag of a request to ask, with its places counted from there on, and how many bytes it has.
fn ask_node(bytes: &[u8]) -> Result<(Ask, usize), usize>
    ensures { MatchResult result (λ g. ReadAs ask_load bytes.now g.1 (λ l. AsksFor bytes.now 0 g.0 l.0 l.1.0 l.1.1.0 l.1.1.1)) (λ p. Stuck ask_load bytes.now p) }
{
    let schema = scan_counted::<Types>(bytes)?;
    let rest = &bytes[schema.length..];
    let tables = scan_counted::<Data>(rest).map_err(|p| schema.length + p)?;
    let (query, work) = query_and_work(&rest[tables.length..]).map_err(|p| schema.length
        + (tables.length + p))?;
    let ask = Ask {
        types: schema.count,
        tables_at: schema.length + 4,
        tables: tables.count,
        query_at: schema.length + tables.length,
        work,
    };
    Ok((ask, schema.length + (tables.length + (query + 8))))
}

// What follows the tag of a request to plan, with its places counted from there on, and how many bytes it has.
fn plan_node(bytes: &[u8]) -> Result<(Plan, usize), usize>
    ensures { MatchResult result (λ g. ReadAs plan_load bytes.now g.1 (λ l. PlansFor bytes.now 0 g.0 l.0 l.1)) (λ p. Stuck plan_load bytes.now p) }
{
    let schema = scan_counted::<Types>(bytes)?;
    let query = scan::<Queries>(&bytes[schema.length..], 1).map_err(|p| schema.length + p)?;
    let plan = Plan {
        types: schema.count,
        query_at: schema.length,
    };
    Ok((plan, schema.length + query))
}

// What stands in front of a request, and how many bytes it has: all of it, since a request has no requests as parts.
fn request_node(bytes: &[u8]) -> Result<(Request, usize), usize>
    ensures { MatchResult result (λ g. ReadAs requests bytes.now g.1 (TellsRequest bytes.now g.0)) (λ p. Stuck requests bytes.now p) }
{
    if bytes.len() == 0 {
        return Err(0);
    }
    let rest = &bytes[1..];
    match bytes[0] {
        0 => {
            let (ask, length) = ask_node(rest).map_err(|p| 1 + p)?;
            let ask = Ask {
                tables_at: 1 + ask.tables_at,
                query_at: 1 + ask.query_at,
                ..ask
            };
            Ok((Request::ToAsk(ask), 1 + length))
        }
        1 => {
            let (plan, length) = plan_node(rest).map_err(|p| 1 + p)?;
            let plan = Plan {
                query_at: 1 + plan.query_at,
                ..plan
            };
            Ok((Request::ToPlan(plan), 1 + length))
        }
        _ => Err(0),
    }
}

// The request that all of the bytes are, or the place at which they cease to be one.
pub fn read_request(bytes: &[u8]) -> Result<Request, usize>
    ensures { MatchResult result (λ q. Requested bytes.now q) (λ p. Garbled requests bytes.now p) }
{
    whole::<Requests>(bytes)
}
