// The exports for a host in C, over numbers and byte runs. include/board.h is their header.
#![tactic(auto)]

mod answers;
mod matrix;
mod reduce;
mod runs;

ghost use Rattle.std.specs.Prelude.{◌≡◌};
ghost use Rattle.reduction.specs.Steps.{shrink, prune};
ghost use Rattle.host.specs.Answers.{matrix_answer, matrix_bytes, matrix_over, step_answer, table_bytes, step_over};

use steps::step::{Prune, Shrink};

// The delay matrix. Answers 0, or minus the refusal's number.
#[unsafe(no_mangle)]
pub extern "C" fn board_matrix(
    inputs: usize,
    outputs: usize,
    vertices: usize,
    table: &[u8],
    scratch: &mut [u8],
    matrix: &mut [u8],
) -> i64
    ensures value { result ≡ matrix_answer (matrix_over inputs outputs vertices table.now scratch.old matrix.old) }
    ensures matrix_after { matrix.new ≡ matrix_bytes (matrix_over inputs outputs vertices table.now scratch.old matrix.old) matrix.old }
    ensures scratch_after { scratch.new ≡ scratch.old }
{
    matrix::matrix(inputs, outputs, vertices, table, scratch, matrix)
}

// Shrinks inner vertex k. Answers the arcs left, or minus the refusal's number.
#[unsafe(no_mangle)]
pub extern "C" fn board_shrink(
    inputs: usize,
    outputs: usize,
    vertices: usize,
    table: &mut [u8],
    scratch: &mut [u8],
    k: usize,
) -> i64
    ensures value { result ≡ step_answer (step_over inputs outputs vertices (shrink k) table.old scratch.old) }
    ensures table_after { table.new ≡ table_bytes (step_over inputs outputs vertices (shrink k) table.old scratch.old) table.old }
    ensures scratch_after { scratch.new ≡ scratch.old }
{
    reduce::reduce(inputs, outputs, vertices, table, scratch, &Shrink { k })
}

// Drops the arcs that decide no delay. Answers the arcs left, or minus the refusal's number.
#[unsafe(no_mangle)]
pub extern "C" fn board_prune(
    inputs: usize,
    outputs: usize,
    vertices: usize,
    table: &mut [u8],
    scratch: &mut [u8],
) -> i64
    ensures value { result ≡ step_answer (step_over inputs outputs vertices prune table.old scratch.old) }
    ensures table_after { table.new ≡ table_bytes (step_over inputs outputs vertices prune table.old scratch.old) table.old }
    ensures scratch_after { scratch.new ≡ scratch.old }
{
    reduce::reduce(inputs, outputs, vertices, table, scratch, &Prune)
}
