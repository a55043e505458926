// What a railway writes: the sheet with a parameter set for each end, and the script of calls.
#![tactic(auto)]

pub mod call;
pub mod columns;
pub mod line;
pub mod made;
pub mod params;
pub mod script;
pub mod sheet;
pub mod values;
pub mod writing;
