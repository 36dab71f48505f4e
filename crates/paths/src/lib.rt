// Path delays of boards: the board's type, checks 1 to 6, topological order, arrivals, and the delay matrix; required times and margins.
#![tactic(auto)]

pub mod arrivals;
pub mod board;
pub mod cells;
pub mod chain;
pub mod checks;
pub mod margins;
pub mod order;
pub mod queries;
pub mod sorted;
pub mod table;

pub use board::Board;
pub use sorted::Sorted;
pub use table::Table;
