// What types are worked out in, besides the table of types.
use crate::stack::Stack;

#[derive(Drop)]
pub struct Work {
    // the places of heads of types that are still to be read into the table
    pub heads: Vec<usize>,
    // the numbers of types that were read
    pub stack: Stack,
    // the ranks of some names
    pub ranks: Vec<u32>,
}
