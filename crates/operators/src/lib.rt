// Operators on values, with work counted down from a budget.
#![tactic(auto)]

pub mod came;
pub mod kinds;
pub mod op;
