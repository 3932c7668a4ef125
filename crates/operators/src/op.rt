// Operators by what they are applied to: what one part of a query came to, or what two parts came to.
ghost use Rattle.std.specs.Prelude.{◌≡◌};
ghost use Rattle.operators.specs.Applied.{price_of};

use format::node::{Binary, Unary};

#[derive(Clone, Copy)]
pub enum Single {
    Op(Unary),
    Left,
    Right,
}

#[derive(Clone, Copy)]
pub enum Joint {
    Op(Binary),
    Product,
    // by names of so many bytes
    Matched(usize, usize),
}

// What an operator on two parts costs before its parts are worked out. Products and matches count by what their bags hold.
pub fn price(op: Joint) -> u64
    ensures { result ≡ price_of op }
{
    match op {
        Joint::Op(_) => 1,
        Joint::Product => 0,
        Joint::Matched(_, _) => 0,
    }
}
