// The names of a request, each once and in order, so that a name is a number: its rank.
#![tactic(auto)]

pub mod gather;
pub mod names;
