// Runs of bytes as cells: the calls below take cells, so that a run's are copied into local memory, and back where a call has changed them.
ghost use Rattle.std.specs.Prelude.{◌≡◌, ◌+◌, ◌*◌, ◌≤◌, length};
ghost use Rattle.laws.specs.Lists.{tabulate};
ghost use Rattle.timing.specs.Limits.{max_vertices};
ghost use Rattle.host.specs.Runs.{run_cell, with_cells};
ghost use Rattle.host.specs.Shown.{shown, most_pairs, pairs_shown};

use codec::signed;
use paths::{Board, cells};

// How many of a run's cells a call can use.
pub fn shown(rows: usize, columns: usize, cells: usize) -> usize
    ensures { (result ≡ shown rows columns cells) × (result ≤ max_vertices * max_vertices) }
{
    if rows > Board::MAX_VERTICES {
        return 0;
    }
    if columns > Board::MAX_VERTICES {
        return 0;
    }
    cells.min(rows * columns)
}

// How many of a matrix's cells a call can use.
pub fn pairs_shown(inputs: usize, outputs: usize, cells: usize) -> usize
    ensures { (result ≡ pairs_shown inputs outputs cells) × (result ≤ most_pairs) }
{
    shown(inputs, outputs, cells).min(Board::MAX_PAIRS)
}

// Cell x of a table.
fn cell_at(bytes: &[u8], x: usize) -> i32
    requires { 4 * x + 4 ≤ length bytes.now }
    ensures { result ≡ run_cell 4 bytes.now x }
{
    // Four bytes hold no more than an i32: `as`, for the reason in `answers`.
    signed::decode(&bytes[4 * x..4 * x + 4]) as i32
}

// The first cells of a table.
pub fn take_table(bytes: &[u8], cells: &mut [i32])
    requires { 4 * length cells.old ≤ length bytes.now }
    ensures { cells.new ≡ tabulate (length cells.old) (run_cell 4 bytes.now) }
{
    for (x, cell) in cells.iter_mut().enumerate() {
        *cell = cell_at(bytes, x);
    }
}

// The first cells of a table, put back. Not one generic function with `put_matrix`: a cell's width and its value would be a trait with a law, longer than the loop.
pub fn put_table(bytes: &mut [u8], cells: &[i32])
    requires { 4 * length cells.now ≤ length bytes.old }
    ensures { bytes.new ≡ with_cells 4 cells.now bytes.old }
{
    for (x, &cell) in cells.iter().enumerate() {
        signed::encode(&mut bytes[4 * x..4 * x + 4], cells::wide(cell));
    }
}

// The first cells of a matrix.
pub fn put_matrix(bytes: &mut [u8], cells: &[i64])
    requires { 8 * length cells.now ≤ length bytes.old }
    ensures { bytes.new ≡ with_cells 8 cells.now bytes.old }
{
    for (x, &cell) in cells.iter().enumerate() {
        signed::encode(&mut bytes[8 * x..8 * x + 8], cell);
    }
}
