// Rehearsing a sheet and a script: the script's calls made on a link with the sheet's parameter sets, and a listing of what each answered.
#![tactic(auto)]

mod columns;
pub mod faults;
mod listing;
pub mod rehearsing;
