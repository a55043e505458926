// Falldate for C: what `capi/falldate.h` declares.
#![tactic(auto)]

pub mod measuring;
pub mod reading;
pub mod rehearsing;

// The answer for want of memory, which is no refusal's number below zero.
const NO_MEMORY: i64 = -1;
