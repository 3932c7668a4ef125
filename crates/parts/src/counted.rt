// How many parts something has, and how many bytes it is written in.
#[derive(Clone, Copy)]
pub struct Counted {
    pub parts: usize,
    pub length: usize,
}
