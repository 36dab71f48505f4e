// A try of a share whose rows or columns have been compared.
ghost use Rattle.timing.specs.Refusal.{verdict};
ghost use Rattle.std.specs.Prelude.{◌≡◌};
ghost use Rattle.paths.specs.Checked.{Checked};
ghost use Rattle.run.specs.Running.{Counted, TriesShare};
ghost use Rattle.run.specs.Pairs.{Pair, compared_by};

use crate::side::Side;
use paths::{Board, Table};
use timing::Refusal;

// The try of a pair. Only after an accepted one the arcs are counted again, of a and b alone.
pub fn try_share<S: Side>(
    board: Board,
    table: &mut [i32],
    side: &mut S,
    rich: &mut [bool; Board::MAX_VERTICES],
    a: usize,
    b: usize,
    difference: Result<i64, Refusal>,
) -> bool
    requires checked { Checked board table.old }
    requires known { S.knows side.old board table.old }
    requires counted { Counted S.side board table.old rich.old }
    requires pair { Pair S.side board a b }
    requires difference_value { verdict difference ≡ compared_by S.side board table.old a b }
    ensures tries_share { TriesShare S.side board a b table.old table.new result }
    ensures still_known { S.knows side.new board table.new }
    ensures still_counted { Counted S.side board table.new rich.new }
{
    let Ok(e) = difference else {
        return false;
    };
    if !side.share(board, table, a, b, e) {
        return false;
    }
    let read = Table {
        board,
        cells: table,
    };
    rich[a] = S::is_rich(&read, a);
    rich[b] = S::is_rich(&read, b);
    true
}
