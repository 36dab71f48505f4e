// Board files and library files over lent memory.
#![tactic(auto)]

pub mod answer;
pub mod library;
pub mod loads;
pub mod place;
pub mod read;
pub mod read_library;
pub mod scan;
pub mod write;
