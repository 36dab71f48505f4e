// Records and lines: what stands at an offset of a file, and what is appended to a lent run of bytes.
#![tactic(auto)]

pub mod library;
pub mod lines;
pub mod parse;
pub mod put;
