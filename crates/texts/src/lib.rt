// Text files of lines and values: where a file is cut, how a value is read and written, and the faults of a file.
#![tactic(auto)]

pub mod columns;
pub mod cutting;
pub mod fault;
pub mod heading;
pub mod numbers;
pub mod words;
pub mod writing;
