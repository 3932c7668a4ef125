// What comes of asking.

// What a query comes to: the part of the lent memory in which the datum is written, a byte to a word, and how much was looked at.
#[derive(Clone, Copy)]
pub struct Outcome<'a> {
    pub words: &'a [u64],
    pub looked: u64,
}
