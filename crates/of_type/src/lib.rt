// Whether data are of their types, told from the bytes of both.
#![tactic(auto)]

ghost use Rattle.std.specs.Prelude.{◌≡◌, length};
ghost use Rattle.of_type.specs.Told.{IsOfTold, TablesTold};
ghost use Rattle.of_type.specs.Places.{DatumIs, BagIs, ValuesAre, TypePast, HeadsMet};
ghost use Rattle.of_type.specs.Kinds.{kind_of_node, kind_of_type};

use format::data::data_node;
use format::node::{DataNode, TypeNode};
use format::sort::scan;
use format::types::{Types, type_node};

// The bytes still to come, of data and of their types.
#[derive(Clone, Copy)]
struct Both<'a> {
    datum: &'a [u8],
    ty: &'a [u8],
}

// The heads of a datum and of its type, if they meet: what the datum is, and the bytes after both.
#[derive(Clone, Copy)]
struct Heads<'a> {
    node: DataNode,
    after: Both<'a>,
}

// What a datum is, so that it can be compared with its type; both sides of an either are one kind.
#[derive(Clone, Copy, PartialEq, Eq)]
enum Kind {
    Nothing,
    Number,
    Truth,
    Text,
    Bag,
    Record,
    Either,
}

impl From<DataNode> for Kind {
    ghost from_gives = { λ n k. k ≡ kind_of_node n };

    fn from(node: DataNode) -> Kind {
        match node {
            DataNode::Nothing => Kind::Nothing,
            DataNode::Number(_) => Kind::Number,
            DataNode::Truth(_) => Kind::Truth,
            DataNode::Text(_) => Kind::Text,
            DataNode::Bag(_) => Kind::Bag,
            DataNode::Record(_) => Kind::Record,
            DataNode::Left | DataNode::Right => Kind::Either,
        }
    }
}

// What the data of a type are.
impl From<TypeNode> for Kind {
    ghost from_gives = { λ n k. k ≡ kind_of_type n };

    fn from(node: TypeNode) -> Kind {
        match node {
            TypeNode::Nothing => Kind::Nothing,
            TypeNode::Number => Kind::Number,
            TypeNode::Truth => Kind::Truth,
            TypeNode::Text => Kind::Text,
            TypeNode::Bag => Kind::Bag,
            TypeNode::Record(_) => Kind::Record,
            TypeNode::Either => Kind::Either,
        }
    }
}

// How many bytes the datum in front has, if it is of the type in front.
// Calls go as deep as the type nests and no deeper than `limit`, which is enough for a type of that many parts; data may nest as deep as they like.
pub fn is_of(datum: &[u8], ty: &[u8], limit: usize) -> Option<usize>
    ensures { IsOfTold limit datum.now ty.now result }
{
    let after = Both { datum, ty }.datum_is(limit)?;
    Some(datum.len() - after.datum.len())
}

// Whether the `count` tables in front are of the `types` types in front, one by one and as many; `limit` is enough for a schema of that many parts.
pub fn tables_are(tables: &[u8], count: usize, schema: &[u8], types: usize, limit: usize) -> bool
    ensures { TablesTold limit tables.now count schema.now types result }
{
    let both = Both {
        datum: tables,
        ty: schema,
    };
    count == types && both.values_are(count, limit).is_some()
}

// Each hands on the bytes after the data and the types, if the data are of them: the next type of a record need not be looked for.
impl<'a> Both<'a> {
    // The datum in front against the type in front.
    #[cycle(datum_and_parts)]
    fn datum_is(self, limit: usize) -> Option<Both<'a>>
        ensures { DatumIs limit self.entry result }
    {
        if limit == 0 {
            return None;
        }
        let heads = self.heads_meet()?;
        let after = heads.after;
        match heads.node {
            DataNode::Bag(count) => after.bag_is(count, limit - 1),
            DataNode::Record(count) => after.values_are(count, limit - 1),
            DataNode::Left => after.datum_is(limit - 1)?.past_type(),
            DataNode::Right => after.past_type()?.datum_is(limit - 1),
            _ => Some(after),
        }
    }

    // `count` data, one after the other, against one type. Each of them finds the type's end on its way; where there is none, the type is passed over instead.
    // The type stays where `values_are` goes on in it: one function for both would take the choice with it, and be no plainer.
    #[cycle(datum_and_parts)]
    fn bag_is(self, count: usize, limit: usize) -> Option<Both<'a>>
        ensures { BagIs count limit self.entry result }
    {
        if count == 0 {
            return self.past_type();
        }
        let mut after = self;
        for _i in 0..count {
            let next = Both {
                datum: after.datum,
                ty: self.ty,
            };
            after = next.datum_is(limit)?;
        }
        Some(after)
    }

    // `count` data against as many types, both one after the other: a record's values, or the tables of a schema.
    #[cycle(datum_and_parts)]
    fn values_are(self, count: usize, limit: usize) -> Option<Both<'a>>
        ensures { ValuesAre count limit self.entry result }
    {
        let mut after = self;
        for _i in 0..count {
            after = after.datum_is(limit)?;
        }
        Some(after)
    }

    // The type in front passed over.
    fn past_type(self) -> Option<Both<'a>>
        ensures { TypePast self.entry result }
    {
        let long = scan::<Types>(self.ty, 1).ok()?;
        Some(Both {
            datum: self.datum,
            ty: &self.ty[long..],
        })
    }

    // The heads in front, if the datum can be of the type by them: they are of one kind, and a record has the names of its type.
    fn heads_meet(self) -> Option<Heads<'a>>
        ensures { HeadsMet self.entry result }
    {
        let d = data_node(self.datum).ok()?;
        let t = type_node(self.ty).ok()?;
        if Kind::from(d.head) != Kind::from(t.head) {
            return None;
        }
        if let DataNode::Record(_) = d.head {
            // after the tags stand the names with their count, written alike in both: the same names are the same bytes
            if self.datum[1..d.length] != self.ty[1..t.length] {
                return None;
            }
        }
        let after = Both {
            datum: &self.datum[d.length..],
            ty: &self.ty[t.length..],
        };
        Some(Heads {
            node: d.head,
            after,
        })
    }
}
