// The calls that answer path delays: the delay matrix, and the arrivals at the outputs.
ghost use Rattle.std.specs.Prelude.{◌≡◌, ◌+◌, ◌*◌, ◌≤◌, pos, length, get_or};
ghost use Rattle.laws.specs.Lists.{tabulate};
ghost use Rattle.laws.specs.Lent.{Past};
ghost use Rattle.timing.specs.Limits.{arrival_limit, absent_wide, fits};
ghost use Rattle.timing.specs.Table.{read_cell};
ghost use Rattle.timing.specs.Delays.{arrivals_fit};
ghost use Rattle.timing.specs.Queries.{matrix_call, arrival_call};
ghost use Rattle.paths.specs.Tables.{of_table};
ghost use Rattle.paths.specs.Queries.{ScratchAfter, Fills, RowsMade, with_matrix, matrix_on, arrivals_on};
ghost use Rattle.paths.specs.Board.{ScratchRoom, PastScratch};

use crate::board::Board;
use crate::chain::Walk;
use crate::sorted::Sorted;
use crate::{arrivals, cells, checks};
use timing::Refusal;

// That the scratch has room is a clause beside the table: the scratch is lent, each contract states its cells afterwards, and a struct would hold the board
// again.

// The outputs' cells: they stand in f from m on. Both callers would cut that part of f, to the row's length, and be no plainer.
fn copy_out(row: &mut [i64], f: &[i64], m: usize)
    requires { m + length row.old ≤ length f.now }
    ensures { row.new ≡ tabulate (length row.old) (λ j. get_or f.now (m + j) (pos 0)) }
{
    cells::copy(row, &f[m..m + row.len()]);
}

// The rows of input i and those after it, as many as there are lanes.
fn fill_rows<const LANES: usize>(
    walk: &Walk,
    i: usize,
    scratch: &mut [i64],
    destination: &mut [i64],
)
    requires some { 1 ≤ LANES }
    requires i_bound { i + LANES ≤ walk.now.table.board.inputs }
    requires room { walk.now.table.board.vertices * LANES ≤ length scratch.old }
    requires destination_room { walk.now.table.board.outputs * walk.now.table.board.inputs ≤ length destination.old }
    ensures rows_made { of_table RowsMade walk.now.table i (i + LANES) destination.old destination.new }
    ensures past { Past (walk.now.table.board.vertices * LANES) scratch.old scratch.new }
{
    arrivals::delays_from_each::<LANES>(walk, i, scratch);
    let board = walk.table.board;
    let n = board.outputs;
    let v = board.vertices;
    for l in 0..LANES {
        let from = v * l;
        let at = n * (i + l);
        copy_out(
            &mut destination[at..at + n],
            &scratch[from..from + v],
            board.inputs,
        );
    }
}

// The matrix, one pass over the arcs for each four inputs, and for each that is left.
pub fn fill_matrix(sorted: &Sorted, scratch: &mut [i64], destination: &mut [i64])
    requires scratch_room { ScratchRoom sorted.now.table.board scratch.old }
    requires inputs_in_bounds { sorted.now.table.board.outputs * sorted.now.table.board.inputs ≤ length destination.old }
    ensures destination_after { destination.new ≡ of_table with_matrix sorted.now.table destination.old }
    ensures past_scratch { PastScratch sorted.now.table.board scratch.old scratch.new }
{
    let mut chain = [0; Board::MAX_CELLS];
    let walk = Walk::over(sorted, &mut chain);
    let m = walk.table.board.inputs;
    for four in 0..m / 4 {
        fill_rows::<4>(&walk, 4 * four, scratch, destination);
    }
    for i in m / 4 * 4..m {
        fill_rows::<1>(&walk, i, scratch, destination);
    }
}

// The matrix of a table that has passed its checks; 21 where the destination is short.
fn matrix_answer(
    sorted: &Sorted,
    scratch: &mut [i64],
    destination: &mut [i64],
) -> Result<(), Refusal>
    requires { ScratchRoom sorted.now.table.board scratch.old }
    ensures fills { Fills (of_table matrix_on sorted.now.table destination.old) destination.old destination.new result }
    ensures past_scratch { PastScratch sorted.now.table.board scratch.old scratch.new }
{
    let board = sorted.table.board;
    if destination.len() < board.outputs * board.inputs {
        return Err(Refusal::DestinationShort);
    }
    fill_matrix(sorted, scratch, destination);
    Ok(())
}

// The delay matrix, row by row, into the first m × n cells of `destination`.
pub fn delay_matrix(
    inputs: usize,
    outputs: usize,
    vertices: usize,
    table: &[i32],
    scratch: &mut [i64],
    destination: &mut [i64],
) -> Result<(), Refusal>
    ensures fills { Fills (matrix_call inputs outputs vertices (length scratch.old) table.now destination.old) destination.old destination.new result }
    ensures scratch_after { ScratchAfter inputs outputs vertices table.now scratch.old scratch.new }
{
    let sorted = checks::checked(inputs, outputs, vertices, table, scratch.len())?;
    matrix_answer(&sorted, scratch, destination)
}

// Whether an arrival is absent or within the limits.
fn arrival_fits(x: i64) -> bool
    ensures { result ≡ fits arrival_limit (read_cell absent_wide x) }
{
    x == Board::ABSENT_WIDE || Board::MIN_ARRIVAL <= x && x <= Board::MAX_ARRIVAL
}

// Whether there are so many times, each absent or within the limits: that the list is as long is what is asked.
pub fn times_fit(given: &[i64], count: usize) -> bool
    ensures { result ≡ arrivals_fit count given.now }
{
    if given.len() != count {
        return false;
    }
    for x in given {
        if !arrival_fits(*x) {
            return false;
        }
    }
    true
}

// The output arrivals of a table that has passed its checks; 22 where a list does not fit.
fn arrivals_answer(
    sorted: &Sorted,
    scratch: &mut [i64],
    given: &[i64],
    answers: &mut [i64],
) -> Result<(), Refusal>
    requires { ScratchRoom sorted.now.table.board scratch.old }
    ensures fills { Fills (of_table arrivals_on sorted.now.table given.now answers.old) answers.old answers.new result }
    ensures past_scratch { PastScratch sorted.now.table.board scratch.old scratch.new }
{
    let board = sorted.table.board;
    if !times_fit(given, board.inputs) {
        return Err(Refusal::ArrivalLists);
    }
    if answers.len() != board.outputs {
        return Err(Refusal::ArrivalLists);
    }
    let mut chain = [0; Board::MAX_CELLS];
    arrivals::arrivals(&Walk::over(sorted, &mut chain), given, scratch);
    copy_out(answers, scratch, board.inputs);
    Ok(())
}

// The arrivals at the n outputs from the m input arrivals `given`.
pub fn output_arrivals(
    inputs: usize,
    outputs: usize,
    vertices: usize,
    table: &[i32],
    scratch: &mut [i64],
    given: &[i64],
    answers: &mut [i64],
) -> Result<(), Refusal>
    ensures fills { Fills (arrival_call inputs outputs vertices (length scratch.old) table.now given.now answers.old) answers.old answers.new result }
    ensures scratch_after { ScratchAfter inputs outputs vertices table.now scratch.old scratch.new }
{
    let sorted = checks::checked(inputs, outputs, vertices, table, scratch.len())?;
    arrivals_answer(&sorted, scratch, given, answers)
}
