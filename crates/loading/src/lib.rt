// Loading: data that stand in a request's bytes, made into values in lent memory.
#![tactic(auto)]

pub mod data;
mod front;
pub mod loaded;
pub mod tables;
