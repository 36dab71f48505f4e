// A step over a table of bytes.
ghost use Rattle.std.specs.Prelude.{◌≡◌, length};
ghost use Rattle.host.specs.Runs.{whole_cells};
ghost use Rattle.host.specs.Shown.{shown};
ghost use Rattle.host.specs.Answers.{step_answer, table_bytes, step_with, step_over};

use crate::{answers, runs};
use paths::Board;
use steps::calls;
use steps::step::Step;

// The step, with lent room for the table's cells and a scratch.
fn reduce_in<S: Step>(
    inputs: usize,
    outputs: usize,
    vertices: usize,
    table: &mut [u8],
    cells: &mut [i32],
    scratch: &mut [i64],
    step: &S,
) -> i64
    requires { length cells.old ≡ shown vertices vertices (whole_cells 4 table.old) }
    ensures value { result ≡ step_answer (step_with inputs outputs vertices (length scratch.old) (S.meaning step.now) table.old) }
    ensures table_after { table.new ≡ table_bytes (step_with inputs outputs vertices (length scratch.old) (S.meaning step.now) table.old) table.old }
{
    runs::take_table(table, cells);
    match calls::reduce(inputs, outputs, vertices, cells, scratch, step) {
        Ok(arcs) => {
            runs::put_table(table, cells);
            // At most 8,100: `as`, for the reason in `answers`.
            arcs as i64
        }
        Err(refusal) => answers::refused(refusal),
    }
}

// The step, in local room.
pub fn reduce<S: Step>(
    inputs: usize,
    outputs: usize,
    vertices: usize,
    table: &mut [u8],
    scratch: &[u8],
    step: &S,
) -> i64
    ensures value { result ≡ step_answer (step_over inputs outputs vertices (S.meaning step.now) table.old scratch.now) }
    ensures table_after { table.new ≡ table_bytes (step_over inputs outputs vertices (S.meaning step.now) table.old scratch.now) table.old }
{
    let count = runs::shown(vertices, vertices, table.len() / 4);
    let room = (scratch.len() / 8).min(Board::MAX_SCRATCH);
    let mut cells = [0; Board::MAX_CELLS];
    let mut wide = [0; Board::MAX_SCRATCH];
    reduce_in(
        inputs,
        outputs,
        vertices,
        table,
        &mut cells[..count],
        &mut wide[..room],
        step,
    )
}
