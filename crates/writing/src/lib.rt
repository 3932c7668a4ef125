// Writing: what values stand for, written out in the byte format, a byte to a number of lent memory.
#![tactic(auto)]

pub mod out;
mod put;
pub mod trip;
