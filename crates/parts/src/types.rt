// How many parts a type has that stands in front of bytes, and a schema.
ghost use Rattle.std.specs.Prelude.{true};
ghost use Rattle.query.specs.Size.{size_t, size_s};
ghost use Rattle.format.specs.Coding.{many};
ghost use Rattle.format.specs.Wire.{types as all_types};
ghost use Rattle.format.specs.Heads.{ty_heads};
ghost use Rattle.format.specs.Nodes.{TellsType};
ghost use Rattle.parts.specs.Counts.{CountedInFront};
ghost use Rattle.parts.specs.Heads.{own_t, Weighed};

use crate::counted::Counted;
use crate::measured::{Front, Measured, measure};
use crate::names::names_parts;
use format::node::TypeNode;
use format::types::{Types, type_node};

impl Measured for Types {
    ghost coding = { all_types };

    ghost size = { size_t };

    ghost holds = { λ _. true };

    fn front(bytes: &[u8], limit: usize) -> Option<Front> {
        if limit == 0 {
            return None;
        }
        let o = type_node(bytes).ok()?;
        let own = own_parts(&bytes[1..], o.head, limit - 1)?;
        Some(Front {
            own: 1 + own,
            after: o.parts,
            length: o.length,
        })
    }
}

// What the head of a type counts besides itself: a record's names. The bytes are those after the tag.
pub(crate) fn own_parts(bytes: &[u8], node: TypeNode, limit: usize) -> Option<usize>
    ensures { Weighed ty_heads TellsType own_t limit bytes.now node result }
{
    match node {
        TypeNode::Record(_) => {
            let names = names_parts(bytes, limit)?;
            Some(names.parts)
        }
        _ => Some(0),
    }
}

// The parts and the bytes of the type in front, or nothing if it has more parts than the limit.
pub fn type_parts(bytes: &[u8], limit: usize) -> Option<Counted>
    ensures { CountedInFront all_types size_t limit bytes.now result }
{
    measure::<Types>(bytes, 1, limit)
}

// The parts and the bytes of the schema of `count` types in front, or nothing if it has more parts than the limit.
// In a schema a type counts one more than its parts.
pub fn schema_parts(bytes: &[u8], count: usize, limit: usize) -> Option<Counted>
    ensures { CountedInFront (many all_types count) size_s limit bytes.now result }
{
    let left = limit.checked_sub(count)?;
    let types = measure::<Types>(bytes, count, left)?;
    Some(Counted {
        parts: count + types.parts,
        length: types.length,
    })
}
