// Operators on records: each reads records from memory and makes its result in free memory, or says that there is no room.
#![tactic(auto)]

pub mod build;
pub mod choose;
pub mod field;
pub mod join;
pub mod laws;
mod pair;
