// Star, over a table that has passed its checks.
#![tactic(auto)]

pub mod star;
