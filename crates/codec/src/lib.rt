// Numbers of one to eight bytes, low byte first: unsigned, and signed in two's complement.
#![tactic(auto)]

pub mod signed;
pub mod unsigned;
