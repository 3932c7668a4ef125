// What a table of types holds. Numbers are of four bytes, so that a field takes eight and an entry twelve.

// A field of a record: the rank of its name, and the number of its type.
#[derive(Clone, Copy, PartialEq, Eq, Drop)]
pub struct Field {
    pub name: u32,
    pub of: u32,
}

// A type by the numbers of its parts. A record is where its fields stand in the table.
#[derive(Clone, Copy, PartialEq, Eq, Drop)]
pub enum Entry {
    Unit,
    Num,
    Truth,
    Text,
    Bag(u32),
    Either(Two),
    Record(Run),
}

// Where the fields of a record begin, and how many there are.
#[derive(Clone, Copy, PartialEq, Eq, Drop)]
pub struct Run {
    pub start: u32,
    pub count: u32,
}

// The numbers of the two sides of an either.
#[derive(Clone, Copy, PartialEq, Eq, Drop)]
pub struct Two {
    pub left: u32,
    pub right: u32,
}

// The next field of two records in one, and how many fields of each it was.
#[derive(Clone, Copy, Drop)]
pub struct Next {
    pub field: Field,
    pub first: u32,
    pub second: u32,
}
