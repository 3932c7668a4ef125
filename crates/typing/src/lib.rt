// The type of a query, worked out from a request's bytes in memory of the desk's own.
#![tactic(auto)]

pub mod load;
pub mod memory;
pub mod parts;
pub mod ranked;
pub mod stack;
pub mod visit;
pub mod work;
