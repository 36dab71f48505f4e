// Required times and margins: a pass forwards and one backwards over the arcs. Backwards, required times are mirrored (negated), so that the later of two
// is taken there too and absent is again below every other.
ghost use Rattle.std.specs.Prelude.{◌≡◌, ◌≢◌, T, length};
ghost use Rattle.graph.specs.Delay.{◌⋓◌, ◌⊕◌, ◌⊖◌, mirror};
ghost use Rattle.timing.specs.Limits.{delay_limit, absent_cell, absent_wide, fits};
ghost use Rattle.timing.specs.Table.{read_cell, write_cell};
ghost use Rattle.timing.specs.Delays.{arrival_in};
ghost use Rattle.timing.specs.Margins.{cells};
ghost use Rattle.paths.specs.Tables.{of_table};
ghost use Rattle.paths.specs.Arrivals.{reached_limit, filled, Starts, Given};
ghost use Rattle.paths.specs.Margins.{InReach, Pulled, lists, lists_fit, margins, Timed, latest_back, required_from, margins_on};

use crate::board::Board;
use crate::chain::{LinkedRow, Walk};
use crate::sorted::Sorted;
use crate::{arrivals, checks, queries};
use timing::Refusal;

// The later of what is there and, where a is present, what comes over an arc.
fn later(best: i64, a: i64, cell: i32) -> i64
    requires a_fits { T (fits reached_limit (read_cell absent_wide a)) }
    requires cell_nonzero { cell ≢ absent_cell }
    requires cell_fits { T (fits delay_limit (read_cell absent_cell cell)) }
    ensures { read_cell absent_wide result ≡ read_cell absent_wide best ⋓ (read_cell absent_wide a ⊕ read_cell absent_cell cell) }
{
    let missing = a == Board::ABSENT_WIDE;
    if missing {
        return best;
    }
    best.max(a + i64::from(cell))
}

// The latest of what is there and what comes back over the arcs that a row's chain walks, from link to link.
fn pull(row: &LinkedRow, start: i64, f: &[i64]) -> i64
    requires { InReach (length row.now.cells.now) f.now }
    ensures { Pulled (length row.now.cells.now) row.now.cells.now row.now.links.now start f.now result }
{
    let mut best = start;
    let mut v = usize::from(row.links[0]);
    while v < row.cells.len() {
        best = later(best, f[v], row.cells[v]);
        v = usize::from(row.links[v]);
    }
    best
}

// The latest that comes back to each vertex, where the first N cells of f have what starts there.
fn propagate_back(walk: &Walk, f: &mut [i64])
    requires { Starts walk.now.table.board.vertices f.old }
    ensures { f.new ≡ filled walk.now.table.board.vertices (of_table latest_back walk.now.table f.old) f.old }
{
    for p in (0..walk.table.board.vertices).rev() {
        let u = usize::from(walk.order[p]);
        f[u] = pull(&walk.row(u), f[u], f);
    }
}

// A time's mirror image.
fn mirrored(x: i64) -> i64
    requires { T (fits reached_limit (read_cell absent_wide x)) }
    ensures { result ≡ write_cell absent_wide (mirror (read_cell absent_wide x)) }
{
    if x == Board::ABSENT_WIDE {
        return x;
    }
    -x
}

// Each cell mirrored.
fn mirror_all(f: &mut [i64])
    requires { InReach (length f.old) f.old }
    ensures { f.new ≡ cells (length f.old) (λ v. mirror (arrival_in f.old v)) }
{
    for x in f.iter_mut() {
        *x = mirrored(*x);
    }
}

// The required times at every vertex, in one pass.
fn required_times(walk: &Walk, due: &[i64], required: &mut [i64])
    requires given { Given walk.now.table.board.outputs due.now }
    requires required_len { length required.old ≡ walk.now.table.board.vertices }
    ensures { required.new ≡ cells walk.now.table.board.vertices (of_table required_from walk.now.table due.now) }
{
    arrivals::start(required, walk.table.board.inputs, due);
    mirror_all(required);
    propagate_back(walk, required);
    mirror_all(required);
}

// Required time less arrival, absent where either is.
fn margin_of(required: i64, arrival: i64) -> i64
    requires required_fits { T (fits reached_limit (read_cell absent_wide required)) }
    requires arrival_fits { T (fits reached_limit (read_cell absent_wide arrival)) }
    ensures { result ≡ write_cell absent_wide (read_cell absent_wide required ⊖ read_cell absent_wide arrival) }
{
    if required == Board::ABSENT_WIDE || arrival == Board::ABSENT_WIDE {
        return Board::ABSENT_WIDE;
    }
    required - arrival
}

// The margins at every vertex.
fn fill_margins(required: &[i64], arrival: &[i64], margin: &mut [i64])
    requires in_reach { InReach (length margin.old) required.now }
    requires arrival_in_reach { InReach (length margin.old) arrival.now }
    ensures { margin.new ≡ cells (length margin.old) (λ v. arrival_in required.now v ⊖ arrival_in arrival.now v) }
{
    for (v, x) in margin.iter_mut().enumerate() {
        *x = margin_of(required[v], arrival[v]);
    }
}

// Document 02's call lends its five lists one by one: they stay parameters side by side.

// Whether the given times and the places for the answers fit the board.
fn lists_fit(
    board: Board,
    given: &[i64],
    due: &[i64],
    arrival: &[i64],
    required: &[i64],
    margin: &[i64],
) -> bool
    ensures { result ≡ lists_fit board given.now due.now (lists arrival.now required.now margin.now) }
{
    let n = board.vertices;
    queries::times_fit(given, board.inputs)
        && queries::times_fit(due, board.outputs)
        && arrival.len() == n
        && required.len() == n
        && margin.len() == n
}

// The times of a table that has passed its checks; 22 where a list does not fit.
fn margins_answer(
    sorted: &Sorted,
    given: &[i64],
    due: &[i64],
    arrival: &mut [i64],
    required: &mut [i64],
    margin: &mut [i64],
) -> Result<(), Refusal>
    ensures { Timed (of_table margins_on sorted.now.table given.now due.now) (lists arrival.old required.old margin.old) (lists arrival.new required.new margin.new) result }
{
    if !lists_fit(sorted.table.board, given, due, arrival, required, margin) {
        return Err(Refusal::ArrivalLists);
    }
    let mut chain = [0; Board::MAX_CELLS];
    let walk = Walk::over(sorted, &mut chain);
    arrivals::arrivals(&walk, given, arrival);
    required_times(&walk, due, required);
    fill_margins(required, arrival, margin);
    Ok(())
}

// The arrival, the required time and the margin of every vertex, from the m arrivals at the inputs and the n required times at the outputs.
// Of the scratch only the length is asked.
pub fn margins(
    inputs: usize,
    outputs: usize,
    vertices: usize,
    table: &[i32],
    scratch: &[i64],
    given: &[i64],
    due: &[i64],
    arrival: &mut [i64],
    required: &mut [i64],
    margin: &mut [i64],
) -> Result<(), Refusal>
    ensures { Timed (margins inputs outputs vertices table.now scratch.now given.now due.now) (lists arrival.old required.old margin.old) (lists arrival.new required.new margin.new) result }
{
    let sorted = checks::checked(inputs, outputs, vertices, table, scratch.len())?;
    margins_answer(&sorted, given, due, arrival, required, margin)
}
