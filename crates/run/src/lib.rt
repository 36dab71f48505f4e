// The automatic run as a call over lent memory.
#![tactic(auto)]

pub mod answer;
pub mod calls;
pub mod counts;
pub mod inputs;
pub mod outputs;
pub mod round;
pub mod share_tries;
pub mod shares;
pub mod side;
pub mod vertex_tries;
