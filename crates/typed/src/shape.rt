// Queries by how the types of their parts are put together.
ghost use Rattle.typed.specs.Shaped.{TellsShape};

use format::node::{Binary, QueryNode, Unary};

// What has no parts.
#[derive(Clone, Copy)]
pub enum Leaf {
    Table(usize),
    It,
    Env,
    Just,
}

// What is done with the type of one part.
#[derive(Clone, Copy)]
pub enum Single {
    Op(Unary),
    Left,
    Right,
}

// What is done with the types of two parts.
#[derive(Clone, Copy)]
pub enum Joint {
    Op(Binary),
    Product,
    // by names of so many bytes
    Matched(usize, usize),
    Default,
}

// What is done with the type of the first part, asked of each of the second.
#[derive(Clone, Copy)]
pub enum Over {
    Each,
    Keep,
}

#[derive(Clone, Copy)]
pub enum Shape {
    Leaf(Leaf),
    Single(Single),
    Pair(Joint),
    Over(Over),
    Then,
    WithEnv,
    Either,
}

pub fn shape_of(node: QueryNode) -> Shape
    ensures { TellsShape node result }
{
    match node {
        QueryNode::Table(n) => Shape::Leaf(Leaf::Table(n)),
        QueryNode::It => Shape::Leaf(Leaf::It),
        QueryNode::Env => Shape::Leaf(Leaf::Env),
        QueryNode::Just(_) => Shape::Leaf(Leaf::Just),
        QueryNode::Two(o) => Shape::Pair(Joint::Op(o)),
        QueryNode::One(o) => Shape::Single(Single::Op(o)),
        QueryNode::Each => Shape::Over(Over::Each),
        QueryNode::Keep => Shape::Over(Over::Keep),
        QueryNode::Product => Shape::Pair(Joint::Product),
        QueryNode::Matched(m, n) => Shape::Pair(Joint::Matched(m, n)),
        QueryNode::Default => Shape::Pair(Joint::Default),
        QueryNode::OnLeft(_) => Shape::Single(Single::Left),
        QueryNode::OnRight(_) => Shape::Single(Single::Right),
        QueryNode::Either => Shape::Either,
        QueryNode::Then => Shape::Then,
        QueryNode::WithEnv => Shape::WithEnv,
    }
}
