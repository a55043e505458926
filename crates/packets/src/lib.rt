// Packets: the envelope in which the redundancy layer carries a frame.
#![tactic(auto)]

pub mod packet;
