// What every part of the project names: roles and what each party has, identifiers, counters, refusals with their numbers, failures,
// strings laid into a buffer, and what can be written there.
#![tactic(auto)]

pub mod counters;
pub mod failure;
pub mod identifier;
pub mod laying;
pub mod layout;
pub mod lengths;
pub mod refusal;
pub mod role;
pub mod sides;
