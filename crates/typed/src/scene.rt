// What stays the same while a query is walked over.
use ranks::names::Names;

// What is lent and only read: the request's bytes, its names, the numbers of the schema's types, the guide to the query, and where the query begins.
#[derive(Clone, Copy)]
pub struct Lent<'a, 'b, 'c> {
    pub bytes: &'a [u8],
    pub names: &'b Names,
    pub schema: &'b [u32],
    pub guide: &'c [u32],
    pub base: usize,
}
