// What the calls for C do that edit a saved replica: it is read into arrays of the call's own, changed there and
// written.
#![tactic(auto)]

mod inputs;
pub mod receiving;
pub mod sending;
