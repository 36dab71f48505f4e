// The share tries of a round: pairs a, b, a rising, then b. The matrix does not change during a run, so that it is computed once before.
ghost use Rattle.run.specs.Running.{progress, Running, Held, Leads};
ghost use Rattle.run.specs.Sides.{side_tries};

use crate::side::Side;
use crate::{counts, share_tries};
use paths::{Board, Table};
use plans::common;
use timing::Refusal;

// All tries of a side, each on the table as it then is. Too few arcs at b, or no free number, refuse a pair before anything is compared; then the first entry at which
// the difference is another settles it. The labelled loop is document 01's form. In a frame of its own the loop keeps its numbers in registers: inlined into the round, it
// takes some 2 million instructions more of the 19 that a run on the board `rounds` takes.
#[inline(never)]
pub fn shares<S: Side>(
    board: Board,
    table: &mut [i32],
    matrix: &[i64],
    side: &mut S,
    steps: usize,
) -> usize
    requires running { Running board (progress table.old steps) }
    requires held { Held board matrix.now table.old }
    requires given { S.given side.old board table.old }
    ensures leads { Leads board (side_tries board S.side) table.old steps table.new result }
    ensures still_known { S.knows side.new board table.new }
{
    side.begin(&Table {
        board,
        cells: table,
    });
    if !side.is_open() {
        return steps;
    }
    let from = S::first(board.inputs);
    let end = S::end(board);
    let across = S::across(board.inputs, board.outputs);
    let mut rich = counts::rich_ones::<S>(&Table {
        board,
        cells: table,
    });
    let mut done = steps;
    'firsts: for a in from..end {
        'seconds: for b in from..end {
            if a == b || !rich[b] || !side.is_open() {
                continue 'seconds;
            }
            let mut seen = None;
            let mut j = 0;
            let difference = 'compare: loop {
                if j >= across {
                    break 'compare seen.ok_or(Refusal::NoCommonDifference);
                }
                let x = matrix[S::place(board, a, j)];
                let y = matrix[S::place(board, b, j)];
                match common::seen_next(seen, x, y) {
                    Ok(next) => seen = next,
                    Err(refusal) => break 'compare Err(refusal),
                }
                j += 1;
            };
            let accepted = share_tries::try_share(board, table, side, &mut rich, a, b, difference);
            done += usize::from(accepted);
        }
    }
    done
}
