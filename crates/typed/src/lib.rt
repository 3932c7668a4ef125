// The type of a query, told from a request's bytes in memory of the desk's own.
#![tactic(auto)]

mod part;
mod scene;
mod shape;
mod step;
mod walk;
pub mod whole;
