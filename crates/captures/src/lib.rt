// The lines of a captured session: what each says, and the bytes that it writes in digits.
#![tactic(auto)]

pub mod check;
pub mod hex;
pub mod line;
pub mod parties;
pub mod show;
