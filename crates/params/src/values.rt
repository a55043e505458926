// The values of a parameter set, as one line of a sheet has them.
use terms::counters::{ExecutionCycle, Ticks};
use terms::identifier::Identifier;

// The length of a tick.
#[derive(Clone, Copy)]
pub struct Milliseconds(pub u16);

#[derive(Clone, Copy)]
pub struct Values {
    // the party's own identifier, and the far party's
    pub own: Identifier,
    pub far: Identifier,
    // both go out in ECStart and are compared with the far party's
    pub version: u8,
    pub period: Milliseconds,
    // how far a sequence number may lie above the last accepted one
    pub window: u32,
    // the least and the greatest age of a telegram, in ticks; the least lies below zero
    pub mmin: i64,
    pub mmax: u32,
    // when the far party is asked for a sign of life, and how long that is waited for
    pub ask: Ticks,
    pub wait: Ticks,
    // how long a connection may take to come about
    pub setup: Ticks,
    // the longest message, in bytes: the column `data`
    pub longest: u16,
    // the execution cycle to start from
    pub ec: ExecutionCycle,
}
