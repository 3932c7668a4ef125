// Names and data as sorts: what stands in front of them.
ghost use Rattle.std.specs.Prelude.{◌≡◌, ℕ, MatchResult};
ghost use Rattle.format.specs.Coding.{name};
ghost use Rattle.format.specs.Wire.{data_of};
ghost use Rattle.format.specs.Heads.{data_heads, data_arity};
ghost use Rattle.format.specs.Nodes.{NodeRead, TellsData};
ghost use Rattle.format.specs.Reading.{ReadAs, Stuck};
ghost use Rattle.format.specs.Trees.{inhabited, tree_way};
ghost use Rattle.format.specs.NameLaws.{no_parts, name_laws};
ghost use Rattle.format.specs.DataLaws.{data_laws};

use crate::name::read_name;
use crate::node::DataNode;
use crate::number::{read_u32, read_u64};
use crate::sort::{Opening, Sort, scan_counted};

// Names and texts, which have no parts; a head is how many bytes follow the length.
pub struct Names;

impl Sort for Names {
    type Head = usize;

    ghost coding = { name };

    ghost told = { λ n xs e. Unit {0} };

    ghost some = { inhabited name name (no_parts name) name_laws };

    ghost unique = { tree_way name name (no_parts name) name_laws };

    fn head(bytes: &[u8]) -> Result<Opening<usize>, usize> {
        let n = read_name(bytes)?;
        Ok(Opening {
            head: n,
            parts: 0,
            length: 4 + n,
        })
    }
}

pub struct Data;

impl Sort for Data {
    type Head = DataNode;

    ghost coding = { data_of };

    ghost told = { λ n xs e. ReadAs data_heads xs e (TellsData n) };

    ghost some = { inhabited data_of data_heads data_arity data_laws };

    ghost unique = { tree_way data_of data_heads data_arity data_laws };

    fn head(bytes: &[u8]) -> Result<Opening<DataNode>, usize> {
        data_node(bytes)
    }
}

// The node of the datum in front, and how many bytes stand before its parts.
#[tactic(auto, using(crate::specs::DataLaws::data_no_tag, crate::specs::DataLaws::data_empty))]
fn data_head(bytes: &[u8]) -> Result<(DataNode, usize), usize>
    ensures { MatchResult result (λ g. ReadAs data_heads bytes.now g.1 (TellsData g.0)) (λ p. Stuck data_heads bytes.now p) }
{
    if bytes.len() == 0 {
        return Err(0);
    }
    let rest = &bytes[1..];
    match bytes[0] {
        0 => Ok((DataNode::Nothing, 1)),
        1 => {
            let n = read_u64(rest).map_err(|p| 1 + p)?;
            Ok((DataNode::Number(n), 9))
        }
        2 => Ok((DataNode::Truth(false), 1)),
        3 => Ok((DataNode::Truth(true), 1)),
        4 => {
            let n = read_name(rest).map_err(|p| 1 + p)?;
            Ok((DataNode::Text(n), 5 + n))
        }
        5 => {
            let things = read_u32(rest).map_err(|p| 1 + p)?;
            Ok((DataNode::Bag(things), 5))
        }
        6 => {
            let names = scan_counted::<Names>(rest).map_err(|p| 1 + p)?;
            Ok((DataNode::Record(names.count), 1 + names.length))
        }
        7 => Ok((DataNode::Left, 1)),
        8 => Ok((DataNode::Right, 1)),
        _ => Err(0),
    }
}

// What stands in front of a datum.
pub fn data_node(bytes: &[u8]) -> Result<Opening<DataNode>, usize>
    ensures { MatchResult result (λ o. NodeRead data_heads data_arity TellsData bytes.now o.head o.parts o.length) (λ p. Stuck data_heads bytes.now p) }
{
    let (head, length) = data_head(bytes)?;
    Ok(Opening {
        head,
        parts: head.parts(),
        length,
    })
}
