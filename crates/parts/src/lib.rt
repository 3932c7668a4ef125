// Over the bytes: how many parts data, types, queries and schemas have, and whether a schema's names are in order.
#![tactic(auto)]

pub mod counted;
pub mod data;
pub mod measured;
pub mod names;
pub mod order;
pub mod queries;
pub mod types;
