// What the calls for C do that begin a saved replica, load one for use, show it, count it, list what it holds and
// answer a list.
#![tactic(auto)]

pub mod exchange;
pub mod sheets;
