// The counters of a connection. Each is a type of its own, so that one never stands where another belongs.

// SN: the number of a data frame, one more with each that its sender puts.
#[derive(Clone, Copy, PartialEq, Eq, PartialOrd, Ord, Debug)]
pub struct SequenceNumber(pub u32);

// EC: the execution cycle of the sender, one more with each of its ticks.
#[derive(Clone, Copy, PartialEq, Eq, PartialOrd, Ord, Debug)]
pub struct ExecutionCycle(pub u32);

// A number of ticks: a limit, or a count since something happened.
#[derive(Clone, Copy, PartialEq, Eq, PartialOrd, Ord, Debug)]
pub struct Ticks(pub u32);
