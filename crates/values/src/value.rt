// What is handled: a value, small, whose parts lie in memory. Texts and names stay in the request's bytes.

// So many things in a row, from a place on.
#[derive(Clone, Copy, PartialEq, Eq)]
pub struct Place {
    pub start: usize,
    pub count: usize,
}

#[derive(Clone, Copy, PartialEq, Eq)]
pub enum Value {
    Nothing,
    Number(u64),
    Truth(bool),
    // bytes of the request
    Text(Place),
    // slots of memory
    Bag(Place),
    // fields of memory
    Record(Place),
    // the slot of what is on that side
    Left(usize),
    Right(usize),
}

// A field of a record: where its name stands in the request's bytes, and its value.
#[derive(Clone, Copy)]
pub struct Field {
    pub name: Place,
    pub value: Value,
}
