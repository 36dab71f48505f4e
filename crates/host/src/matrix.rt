// The delay matrix over runs of bytes.
ghost use Rattle.std.specs.Prelude.{◌≡◌, length};
ghost use Rattle.host.specs.Runs.{whole_cells};
ghost use Rattle.host.specs.Shown.{shown, pairs_shown};
ghost use Rattle.host.specs.Answers.{matrix_answer, matrix_bytes, matrix_with, matrix_over};

use crate::{answers, runs};
use paths::{Board, queries};

// What an accepted call answers.
const DONE: i64 = 0;

// The matrix, with lent room for the table's cells, a scratch and the matrix's cells.
fn matrix_in(
    inputs: usize,
    outputs: usize,
    vertices: usize,
    table: &[u8],
    cells: &mut [i32],
    scratch: &mut [i64],
    matrix: &mut [u8],
    delays: &mut [i64],
) -> i64
    requires cells_len { length cells.old ≡ shown vertices vertices (whole_cells 4 table.now) }
    requires delays_len { length delays.old ≡ pairs_shown inputs outputs (whole_cells 8 matrix.old) }
    ensures value { result ≡ matrix_answer (matrix_with inputs outputs vertices (length scratch.old) table.now matrix.old) }
    ensures matrix_after { matrix.new ≡ matrix_bytes (matrix_with inputs outputs vertices (length scratch.old) table.now matrix.old) matrix.old }
{
    runs::take_table(table, cells);
    match queries::delay_matrix(inputs, outputs, vertices, cells, scratch, delays) {
        Ok(()) => {
            runs::put_matrix(matrix, delays);
            DONE
        }
        Err(refusal) => answers::refused(refusal),
    }
}

// The matrix, in local room.
pub fn matrix(
    inputs: usize,
    outputs: usize,
    vertices: usize,
    table: &[u8],
    scratch: &[u8],
    matrix: &mut [u8],
) -> i64
    ensures value { result ≡ matrix_answer (matrix_over inputs outputs vertices table.now scratch.now matrix.old) }
    ensures matrix_after { matrix.new ≡ matrix_bytes (matrix_over inputs outputs vertices table.now scratch.now matrix.old) matrix.old }
{
    let count = runs::shown(vertices, vertices, table.len() / 4);
    let room = (scratch.len() / 8).min(Board::MAX_SCRATCH);
    let pairs = runs::pairs_shown(inputs, outputs, matrix.len() / 8);
    let mut cells = [0; Board::MAX_CELLS];
    let mut wide = [0; Board::MAX_SCRATCH];
    let mut delays = [0; Board::MAX_PAIRS];
    matrix_in(
        inputs,
        outputs,
        vertices,
        table,
        &mut cells[..count],
        &mut wide[..room],
        matrix,
        &mut delays[..pairs],
    )
}
