// Queries by how their parts are worked out, and what the cycle asks of a value.
ghost use Rattle.std.specs.Prelude.{◌≡◌};
ghost use Rattle.guide.specs.Visits.{IsQuery};
ghost use Rattle.query.specs.Query.{Query};
ghost use Rattle.eval.specs.Shaped.{TellsShape, place_in, empty_in, side_in};

use format::node::QueryNode;
use operators::op::{Joint, Single};
use values::value::{Place, Value};

// Something that is at hand: nothing is worked out.
#[derive(Clone, Copy)]
pub enum Leaf {
    Table(usize),
    It,
    Env,
    Just,
}

// What is done with what the second part comes to.
#[derive(Clone, Copy)]
pub enum Over {
    Each,
    Keep,
    Then,
    WithEnv,
}

#[derive(Clone, Copy)]
pub enum Shape {
    Leaf(Leaf),
    // one part, and an operator on it
    Single(Single),
    // two parts from left to right, and an operator on both
    Pair(Joint),
    // the second part, and the first of what that comes to
    Over(Over),
    Default,
    Either,
}

pub fn shape_of(node: QueryNode) -> Shape
    ensures { TellsShape node result }
{
    match node {
        QueryNode::Table(n) => Shape::Leaf(Leaf::Table(n)),
        QueryNode::It => Shape::Leaf(Leaf::It),
        QueryNode::Env => Shape::Leaf(Leaf::Env),
        QueryNode::Just(_) => Shape::Leaf(Leaf::Just),
        QueryNode::Two(o) => Shape::Pair(Joint::Op(o)),
        QueryNode::One(o) => Shape::Single(Single::Op(o)),
        QueryNode::Each => Shape::Over(Over::Each),
        QueryNode::Keep => Shape::Over(Over::Keep),
        QueryNode::Product => Shape::Pair(Joint::Product),
        QueryNode::Matched(m, n) => Shape::Pair(Joint::Matched(m, n)),
        QueryNode::Default => Shape::Default,
        QueryNode::OnLeft(_) => Shape::Single(Single::Left),
        QueryNode::OnRight(_) => Shape::Single(Single::Right),
        QueryNode::Either => Shape::Either,
        QueryNode::Then => Shape::Over(Over::Then),
        QueryNode::WithEnv => Shape::Over(Over::WithEnv),
    }
}

// Where a bag's things lie. Types say that it is a bag, so what is said of anything else does not matter.
pub fn place_of(v: Value) -> Place
    ensures { result ≡ place_in v }
{
    match v {
        Value::Bag(p) => p,
        _ => Place { start: 0, count: 0 },
    }
}

pub fn is_empty(v: Value) -> bool
    ensures { result ≡ empty_in v }
{
    match v {
        Value::Bag(p) => p.count == 0,
        _ => false,
    }
}

// The part of a query for one side of an either, and the slot of what is on that side.
#[derive(Clone, Copy)]
pub struct Side {
    pub part: usize,
    pub slot: usize,
}

pub fn side_of(v: Value, first: usize, last: usize) -> Side
    ensures { result ≡ side_in v first last }
{
    match v {
        Value::Left(slot) => Side { part: first, slot },
        Value::Right(slot) => Side { part: last, slot },
        _ => Side {
            part: first,
            slot: 0,
        },
    }
}
