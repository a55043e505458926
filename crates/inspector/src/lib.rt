// What the frames of a captured session say, one after another.
#![tactic(auto)]

pub mod session;
pub mod show;
pub mod tally;
