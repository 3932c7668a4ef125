// How many parts a datum has that stands in front of bytes.
ghost use Rattle.std.specs.Prelude.{true};
ghost use Rattle.query.specs.Size.{size_d};
ghost use Rattle.format.specs.Wire.{data_of};
ghost use Rattle.format.specs.Heads.{data_heads};
ghost use Rattle.format.specs.Nodes.{TellsData};
ghost use Rattle.parts.specs.Counts.{CountedInFront};
ghost use Rattle.parts.specs.Heads.{own_d, Weighed};

use crate::counted::Counted;
use crate::measured::{Front, Measured, measure};
use crate::names::{names_parts, no_more};
use format::data::{Data, data_node};
use format::node::DataNode;

impl Measured for Data {
    ghost coding = { data_of };

    ghost size = { size_d };

    ghost holds = { λ _. true };

    fn front(bytes: &[u8], limit: usize) -> Option<Front> {
        if limit == 0 {
            return None;
        }
        let o = data_node(bytes).ok()?;
        let own = own_parts(&bytes[1..], o.head, limit - 1)?;
        Some(Front {
            own: 1 + own,
            after: o.parts,
            length: o.length,
        })
    }
}

// What the head of a datum counts besides itself: the bytes of a text, or a record's names. The bytes are those after the tag.
fn own_parts(bytes: &[u8], node: DataNode, limit: usize) -> Option<usize>
    ensures { Weighed data_heads TellsData own_d limit bytes.now node result }
{
    match node {
        DataNode::Text(n) => no_more(n, limit),
        DataNode::Record(_) => {
            let names = names_parts(bytes, limit)?;
            Some(names.parts)
        }
        _ => Some(0),
    }
}

// The parts and the bytes of the datum in front, or nothing if it has more parts than the limit.
pub fn data_parts(bytes: &[u8], limit: usize) -> Option<Counted>
    ensures { CountedInFront data_of size_d limit bytes.now result }
{
    measure::<Data>(bytes, 1, limit)
}
