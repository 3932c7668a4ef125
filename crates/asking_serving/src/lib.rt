// Serving a file of requests by the desk that asks.
#![tactic(auto)]

pub mod answers;
pub mod asker;
