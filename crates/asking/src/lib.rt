// Asking: tables and what the query writes out are loaded into lent memory, the query is worked out, and what it comes to is written.
#![tactic(auto)]

pub mod asked;
pub mod outcome;
mod written;
