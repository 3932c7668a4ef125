// The byte format: numbers, names, and the heads of data, types, queries and requests, read from bytes of any length.
#![tactic(auto)]

pub mod data;
pub mod laws;
pub mod name;
pub mod node;
pub mod number;
pub mod queries;
pub mod requests;
pub mod sort;
pub mod types;
