// Find a star: for each vertex the star of all its targets and of all their common sources, and which of these saves most.
#![tactic(auto)]

pub mod best;
pub mod block;
pub mod calls;
