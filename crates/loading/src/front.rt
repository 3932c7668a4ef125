// What stands in front of data and types, and how far they go.
ghost use Rattle.std.specs.Prelude.{◌≡◌, ℕ, ◌+◌, ◌≤◌, length};
ghost use Rattle.query.specs.Data.{Data};
ghost use Rattle.query.specs.Query.{Ty, Tys, a_rec};
ghost use Rattle.format.specs.Wire.{data_of, types, write_ty, FitsData, FitsTy};
ghost use Rattle.format.specs.Nodes.{Stands};
ghost use Rattle.loading.specs.Fronts.{Before, FrontInside, TellsFront, NamesInside, TellsNames, NameInside, TellsName};

use crate::loaded::{Names, Part, Side, Spot};
use format::data::data_node;
use format::name::read_name;
use format::node::{DataNode, TypeNode};
use format::sort::scan;
use format::types::{Types, type_node};
use values::value::{Place, Value};

// How many bytes the type at a place has.
pub fn type_length(bytes: &[u8], ty: usize) -> usize
    requires { ty ≤ length bytes.now }
    ensures inside { ty + result ≤ length bytes.now }
    ensures tells { (t : Ty) → Stands types bytes.now ty t → FitsTy t → result ≡ length (write_ty t) }
{
    scan::<Types>(&bytes[ty..], 1).unwrap_or(0)
}

// How many bytes of types stand before the type of a side, where the types of both sides stand: the right side's comes after the left one's.
pub fn types_before(bytes: &[u8], ty: usize, side: Side) -> usize
    requires { ty ≤ length bytes.now }
    ensures inside { ty + result ≤ length bytes.now }
    ensures tells { Before bytes.now ty side result }
{
    match side {
        Side::Left => 0,
        Side::Right => type_length(bytes, ty),
    }
}

// How many bytes the name at a place has after its length.
pub fn name_length(bytes: &[u8], at: usize) -> Option<usize>
    requires { at ≤ length bytes.now }
    ensures inside { NameInside (length bytes.now) at result }
    ensures tells { TellsName bytes.now at result }
{
    read_name(&bytes[at..]).ok()
}

impl<'a> Spot<'a> {
    // What stands in front of the datum.
    pub(crate) fn part(self) -> Option<Part>
        ensures inside { FrontInside (length self.entry.bytes.now) self.entry.at result }
        ensures tells { (d : Data) → Stands data_of self.entry.bytes.now self.entry.at d → FitsData d → TellsFront self.entry.bytes.now result d }
    {
        if self.at == self.bytes.len() {
            return None;
        }
        if self.bytes[self.at] == 6 {
            return Some(Part::Record);
        }
        let read = data_node(&self.bytes[self.at..]).ok()?;
        match read.head {
            DataNode::Nothing => Some(Part::Plain(Value::Nothing, read.length)),
            DataNode::Number(n) => Some(Part::Plain(Value::Number(n), read.length)),
            DataNode::Truth(b) => Some(Part::Plain(Value::Truth(b), read.length)),
            DataNode::Text(n) => Some(Part::Plain(
                Value::Text(Place {
                    start: self.at + 5,
                    count: n,
                }),
                read.length,
            )),
            DataNode::Bag(k) => Some(Part::Bag(k)),
            DataNode::Record(_) => Some(Part::Record),
            DataNode::Left => Some(Part::Either(Side::Left)),
            DataNode::Right => Some(Part::Either(Side::Right)),
        }
    }

    // The names of the type, which is a record's.
    pub(crate) fn names(self) -> Option<Names>
        ensures inside { NamesInside (length self.entry.bytes.now) self.entry.ty result }
        ensures tells { (ts : Tys) → Stands types self.entry.bytes.now self.entry.ty (a_rec ts) → FitsTy (a_rec ts) → TellsNames result ts }
    {
        let read = type_node(&self.bytes[self.ty..]).ok()?;
        match read.head {
            TypeNode::Record(count) => Some(Names {
                count,
                length: read.length,
            }),
            _ => None,
        }
    }
}
