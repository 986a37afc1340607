// The pending operations of a document, on the arrays that hold them.
#![tactic(auto)]

pub mod counts;
pub mod ready;
