// The states of an end, and the reasons for which it is out.
#![tactic(auto)]

pub mod reason;
pub mod state;
