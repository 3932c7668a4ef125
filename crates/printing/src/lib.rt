// What is printed: numbers, texts, data, and the lines that answers are.
#![tactic(auto)]

pub mod datum;
pub mod line;
pub mod number;
pub mod text;
mod words;
