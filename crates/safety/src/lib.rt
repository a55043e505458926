// The safety code: two cyclic redundancy checks under a word that names the connection.
#![tactic(auto)]

pub mod crc;
pub mod word;
