// Operators on bags: each reads bags from memory and makes its result in free memory, or says that there is no room.
#![tactic(auto)]

pub mod flat;
pub mod join;
pub mod once;
pub mod sum;
