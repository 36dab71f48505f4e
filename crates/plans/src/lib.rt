// Each step's plan on a table that has passed its checks: its conditions, and its new table.
#![tactic(auto)]

pub mod common;
pub mod merge_back;
pub mod rewrite;
pub mod rows;
pub mod share_inputs;
pub mod share_outputs;
pub mod shrink;
pub mod sums;
