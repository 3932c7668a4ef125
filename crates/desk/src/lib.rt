// The desk: the public call.
#![tactic(auto)]

pub mod answer;
pub mod ask;
