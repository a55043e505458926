// What travels between two ends: frames, the telegrams in them, and their seals.
#![tactic(auto)]

mod bytes;
pub mod frame;
pub mod frame_type;
pub mod seal;
pub mod telegram;
