// A table that has passed its checks.
ghost use Rattle.paths.specs.Order.{TopologicalOrder};
ghost use Rattle.paths.specs.Tables.{timing_graph, IsSound};

use crate::order::Order;
use crate::table::Table;

// With a topological order of its vertices. A table without an order stays a `Table` with a clause: with `IsSound` the one that a run leaves, whose text is put, and the one
// that a share of outputs is tried on; with `InRange`, which is less, the one that shrink, merge back and star are asked of. A struct for each would be made anew at
// each try, once in text, and of a `Sorted` where its file is put.
#[derive(Clone, Copy)]
pub struct Sorted<'a> {
    pub table: Table<'a>,
    pub order: Order,
    pub ghost sound: { IsSound table },
    pub ghost rises: { TopologicalOrder table.board.vertices (timing_graph table) order },
}
