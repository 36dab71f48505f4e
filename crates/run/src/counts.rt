// Which vertices have arcs enough to be the second of a share.
ghost use Rattle.paths.specs.Tables.{of_table};
ghost use Rattle.run.specs.Running.{Counted};

use crate::side::Side;
use paths::{Board, Table};

// Each vertex of the side is counted.
pub fn rich_ones<S: Side>(table: &Table) -> [bool; Board::MAX_VERTICES]
    ensures { of_table (Counted S.side) table.now result }
{
    let mut rich = [false; Board::MAX_VERTICES];
    for v in S::first(table.board.inputs)..S::end(table.board) {
        rich[v] = S::is_rich(table, v);
    }
    rich
}
