// The six steps as calls over lent memory.
#![tactic(auto)]

pub mod apply;
pub mod calls;
pub mod step;
