// Working out a query over values in lent memory, within a budget.
#![tactic(auto)]

pub mod scene;
pub mod shape;
pub mod work;
