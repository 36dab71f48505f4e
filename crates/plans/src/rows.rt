// Rows of a table, and the roles of vertices.
ghost use Rattle.std.specs.Prelude.{◌≡◌, ℕ, ◌<◌, ◌≤◌, pos, length, get_or};
ghost use Rattle.timing.specs.Limits.{max_vertices};
ghost use Rattle.reduction.specs.Outcome.{is_output, is_inner};
ghost use Rattle.paths.specs.Tables.{of_table};
ghost use Rattle.plans.specs.OnBoards.{is_free, Free};

use paths::{Board, Table};

// A row of any table.
pub type Row = [i32; Board::MAX_VERTICES];

// That a part of a table has at most 90 cells stays a clause of the functions over one row, here, in reach and in paths/src/order.rt: a type that says it would be
// made anew for each row that is read or written, and be no plainer.

pub fn is_inner(board: Board, k: usize) -> bool
    ensures { result ≡ is_inner board.inputs board.outputs board.vertices k }
{
    let inner = board.inputs + board.outputs..board.vertices;
    inner.contains(&k)
}

pub fn is_output(board: Board, k: usize) -> bool
    ensures { result ≡ is_output board.inputs board.outputs k }
{
    let outputs = board.inputs..board.inputs + board.outputs;
    outputs.contains(&k)
}

// Whether k is an inner vertex that no arc touches.
pub fn is_free(table: &Table, k: usize) -> bool
    requires { k < table.now.board.vertices }
    ensures { result ≡ of_table is_free table.now k }
{
    is_inner(table.board, k) && table.fan_out(k) == 0 && table.none_into(k)
}

// The smallest inner number not in use.
pub fn fresh_number(table: &Table) -> Option<usize>
    ensures { of_table Free table.now result }
{
    let board = table.board;
    for k in board.inputs + board.outputs..board.vertices {
        if is_free(table, k) {
            return Some(k);
        }
    }
    None
}

// A row's cells in an array.
pub fn row_copy(row: &[i32]) -> Row
    requires { length row.now ≤ max_vertices }
    ensures { (v : ℕ) → v < length row.now → get_or result v (pos 0) ≡ get_or row.now v (pos 0) }
{
    let mut copy = [0i32; Board::MAX_VERTICES];
    copy[..row.len()].copy_from_slice(row);
    copy
}
