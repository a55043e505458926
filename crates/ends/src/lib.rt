// The ends of a connection: how each opens, ticks, fetches and stops.
#![tactic(auto)]

pub mod answer;
mod arrival;
pub mod buffers;
pub mod calls;
mod effects;
pub mod end;
mod frames;
mod judging;
pub mod opening;
mod reading;
mod sealed;
pub mod session;
mod ways;
