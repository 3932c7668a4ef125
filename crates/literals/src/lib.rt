// Literals: what a query writes out, numbered and brought into memory once for a request, however often it is asked for.
#![tactic(auto)]

pub mod fill;
pub mod load;
pub mod number;
pub mod step;
#[cfg(test)]
mod tests;
