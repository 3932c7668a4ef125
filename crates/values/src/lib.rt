// Values: data in lent memory. Tables are read from one slice and what is made is written to another.
#![tactic(auto)]

pub mod access;
pub mod item;
pub mod lent;
pub mod row;
pub mod value;
