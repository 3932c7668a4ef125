// What is told of bytes and of what was loaded from them.
ghost use Rattle.std.specs.Prelude.{◌≤◌, length};

use values::value::Value;

// Where a datum and its type stand in a request's bytes.
#[derive(Clone, Copy)]
pub struct Spot<'a> {
    pub bytes: &'a [u8],
    pub at: usize,
    pub ty: usize,
    ghost datum_inside: { at ≤ length bytes.now },
    ghost type_inside: { ty ≤ length bytes.now },
}

// A datum that was loaded: its value, how many bytes it has, and how many its type has.
#[derive(Clone, Copy)]
pub struct Loaded {
    pub value: Value,
    pub length: usize,
    pub typed: usize,
}

// How the types of data in a row stand: one for all of them, or one each, in their order.
#[derive(Clone, Copy)]
pub enum Typing {
    Shared,
    Own,
}

// Data that were loaded in a row: where their slots begin, how many bytes they have, and how many the type of the last one has (0 where there are
// none).
#[derive(Clone, Copy)]
pub struct Slots {
    pub start: usize,
    pub length: usize,
    pub typed: usize,
}

// Which side of an either a datum is.
#[derive(Clone, Copy)]
pub enum Side {
    Left,
    Right,
}

// What stands in front of a datum, as far as it takes to load it.
#[derive(Clone, Copy)]
pub enum Part {
    // a datum without parts: its value, and how many bytes it has
    Plain(Value, usize),
    // a bag of so many things, which stand after five bytes
    Bag(usize),
    // its names are not looked at, since its type has them too
    Record,
    Either(Side),
}

// A record's type: how many fields it has, and how many bytes stand before the types of these.
#[derive(Clone, Copy)]
pub struct Names {
    pub count: usize,
    pub length: usize,
}
