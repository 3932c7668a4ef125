// A table in which each type stands once.
ghost use Rattle.std.specs.Prelude.{◌≤◌, vec_capacity};
ghost use Rattle.types.specs.Tables.{Sound};
ghost use Rattle.types.specs.Once.{sound_prop};

use crate::entry::{Entry, Field};

// How many types a table has room for, and how many fields of records.
pub const MOST_TYPES: usize = 16400;

pub const MOST_FIELDS: usize = 16793600;

// What a table is made of, where nothing is known of it: so memory keeps it from one query to the next.
#[derive(Drop)]
pub struct Rows {
    // how many names there are: a field's name is a number below
    pub names: usize,
    pub entries: Vec<Entry>,
    pub fields: Vec<Field>,
}

#[derive(Drop)]
pub struct Table {
    // how many names there are: a field's name is a number below
    pub names: usize,
    pub entries: Vec<Entry>,
    pub fields: Vec<Field>,
    // each type stands once, after its parts
    pub ghost sound: { Sound names entries.items fields.items } by { sound_prop names entries.items fields.items },
    pub ghost types_fit: { 16400 ≤ vec_capacity entries },
    pub ghost fields_fit: { 16793600 ≤ vec_capacity fields },
}
