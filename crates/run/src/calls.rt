// The automatic run as a call: any arguments, the checks first.
ghost use Rattle.std.specs.Prelude.{length, Ok};
ghost use Rattle.reduction.specs.Run.{run_call};
ghost use Rattle.paths.specs.Checked.{Passable};
ghost use Rattle.paths.specs.Queries.{ScratchAfter};
ghost use Rattle.paths.specs.Board.{ScratchRoom, PastScratch};
ghost use Rattle.run.specs.Runs.{Runs, run_on};

use crate::answer::Ran;
use crate::round;
use crate::round::Known;
use paths::order::Order;
use paths::{Board, Sorted, Table, checks, queries};
use timing::Refusal;

// Rounds until one accepts nothing. Each accepted step costs an arc, so that there is such a round.
fn rounds(board: Board, table: &mut [i32], order: &Order, scratch: &mut [i64]) -> Ran
    requires passable { Passable board table.old order.now }
    requires scratch_room { ScratchRoom board scratch.old }
    ensures runs { Runs (run_on board (length scratch.old) table.old) table.old table.new (Ok result) }
    ensures past_scratch { PastScratch board scratch.old scratch.new }
{
    let mut matrix = [0i64; Board::MAX_PAIRS];
    let sorted = Sorted {
        table: Table {
            board,
            cells: table,
        },
        order: *order,
    };
    queries::fill_matrix(&sorted, scratch, &mut matrix);
    let mut steps = 0;
    let mut next = Some(Known::Sorted(*order));
    while let Some(known) = next {
        let (after, left) = round::round(board, table, scratch, &matrix, known, steps);
        next = (after != steps).then_some(left);
        steps = after;
    }
    let left = Table {
        board,
        cells: table,
    };
    Ran {
        steps,
        arcs: left.arcs(),
    }
}

// Reduces the table by rounds of share inputs, share outputs, prune, shrink, merge back and the star that the finder finds.
pub fn run(
    inputs: usize,
    outputs: usize,
    vertices: usize,
    table: &mut [i32],
    scratch: &mut [i64],
) -> Result<Ran, Refusal>
    ensures runs { Runs (run_call inputs outputs vertices (length scratch.old) table.old) table.old table.new result }
    ensures scratch_after { ScratchAfter inputs outputs vertices table.old scratch.old scratch.new }
{
    let sorted = checks::checked(inputs, outputs, vertices, table, scratch.len())?;
    let board = sorted.table.board;
    let order = sorted.order;
    Ok(rounds(board, table, &order, scratch))
}
