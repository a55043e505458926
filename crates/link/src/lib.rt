// Links: two ends on one carrier, runs of calls on them, and the law that every run obeys.
#![tactic(auto)]

pub mod examples;
pub mod runs;
mod seat;
