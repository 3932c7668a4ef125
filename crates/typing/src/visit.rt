// A query in its bytes, looked at with the guide's help.
ghost use Rattle.std.specs.Prelude.{◌≡◌, ℕ, ◌+◌, ◌<◌, ◌≤◌, length, slice_index};
ghost use Rattle.typing.specs.Visits.{SeenAt};

use format::node::QueryNode;
use guide::node;

// What a query is, and where its first part begins and its last, counted from its own beginning.
#[derive(Clone, Copy)]
pub struct Seen {
    pub node: QueryNode,
    pub first: usize,
    pub last: usize,
}

// What the guide has at a place: nothing past its end.
fn mark_at(guide: &[u32], pos: usize) -> usize
    ensures { result ≡ slice_index guide.now pos }
{
    guide.get(pos).copied().unwrap_or(0) as usize
}

pub fn visit_at(bytes: &[u8], guide: &[u32], base: usize, pos: usize) -> Option<Seen>
    ensures { SeenAt bytes.now guide.now base pos result }
{
    if base > bytes.len() || bytes.len() - base <= pos {
        return None;
    }
    let at = base + pos;
    let last = mark_at(guide, pos);
    let visit = node(&bytes[at..], last)?;
    Some(Seen {
        node: visit.node,
        first: visit.first,
        last,
    })
}
