// The lengths that every part keeps to, in bytes.

// The longest message that any frame may have.
pub const LONGEST_MESSAGE: usize = 1023;

// The longest frame: a carrier takes it, and an output buffer holds it.
pub const LONGEST_FRAME: usize = 1041;
