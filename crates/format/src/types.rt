// Types as a sort: what stands in front of them.
ghost use Rattle.std.specs.Prelude.{◌≡◌, ℕ, MatchResult};
ghost use Rattle.format.specs.Wire.{types};
ghost use Rattle.format.specs.Heads.{ty_heads, ty_arity};
ghost use Rattle.format.specs.Nodes.{NodeRead, TellsType};
ghost use Rattle.format.specs.Reading.{ReadAs, Stuck};
ghost use Rattle.format.specs.Trees.{inhabited, tree_way};
ghost use Rattle.format.specs.TypeLaws.{ty_laws};

use crate::data::Names;
use crate::node::TypeNode;
use crate::sort::{Opening, Sort, scan_counted};

pub struct Types;

impl Sort for Types {
    type Head = TypeNode;

    ghost coding = { types };

    ghost told = { λ n xs e. ReadAs ty_heads xs e (TellsType n) };

    ghost some = { inhabited types ty_heads ty_arity ty_laws };

    ghost unique = { tree_way types ty_heads ty_arity ty_laws };

    fn head(bytes: &[u8]) -> Result<Opening<TypeNode>, usize> {
        type_node(bytes)
    }
}

// The node of the type in front, and how many bytes stand before its parts.
#[tactic(auto, using(crate::specs::TypeLaws::ty_no_tag, crate::specs::TypeLaws::ty_empty))]
fn type_head(bytes: &[u8]) -> Result<(TypeNode, usize), usize>
    ensures { MatchResult result (λ g. ReadAs ty_heads bytes.now g.1 (TellsType g.0)) (λ p. Stuck ty_heads bytes.now p) }
{
    if bytes.len() == 0 {
        return Err(0);
    }
    match bytes[0] {
        0 => Ok((TypeNode::Nothing, 1)),
        1 => Ok((TypeNode::Number, 1)),
        2 => Ok((TypeNode::Truth, 1)),
        3 => Ok((TypeNode::Text, 1)),
        4 => Ok((TypeNode::Bag, 1)),
        5 => {
            let names = scan_counted::<Names>(&bytes[1..]).map_err(|p| 1 + p)?;
            Ok((TypeNode::Record(names.count), 1 + names.length))
        }
        6 => Ok((TypeNode::Either, 1)),
        _ => Err(0),
    }
}

// What stands in front of a type.
pub fn type_node(bytes: &[u8]) -> Result<Opening<TypeNode>, usize>
    ensures { MatchResult result (λ o. NodeRead ty_heads ty_arity TellsType bytes.now o.head o.parts o.length) (λ p. Stuck ty_heads bytes.now p) }
{
    let (head, length) = type_head(bytes)?;
    Ok(Opening {
        head,
        parts: head.parts(),
        length,
    })
}
