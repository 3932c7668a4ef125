// Types by numbers: a table in which no type stands twice, so that types are compared by their numbers.
#![tactic(auto)]

pub mod apply;
pub mod entry;
pub mod intern;
pub mod making;
pub mod pairs;
pub mod part;
pub mod record;
pub mod table;
