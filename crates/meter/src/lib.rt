// The calls that the benchmark (bench/) measures, as exports over cells. Each answers 0, or the refusal's number.
#![tactic(auto)]

ghost use Rattle.std.specs.Prelude.{◌≡◌, length};
ghost use Rattle.timing.specs.Refusal.{verdict};
ghost use Rattle.timing.specs.Queries.{matrix_call};
ghost use Rattle.reduction.specs.Steps.{prune, step_call};
ghost use Rattle.reduction.specs.FindStar.{find_star_call};
ghost use Rattle.reduction.specs.Run.{run_call};
ghost use Rattle.format.specs.Reading.{read_call, table_read};
ghost use Rattle.paths.specs.Queries.{ScratchAfter};
ghost use Rattle.paths.specs.Margins.{lists, margins};
ghost use Rattle.meter.specs.Answers.{Measures, Tells, number_of, read_number, star_left};

use files::read;
use finder::calls;
use paths::{margins, queries};
use timing::{Refusal, numbers};

// 0, or the refusal's number.
fn number<T: Drop>(answer: Result<T, Refusal>) -> usize
    ensures { result ≡ number_of (verdict answer) }
{
    match answer {
        Ok(_) => 0,
        Err(refusal) => numbers::number(refusal),
    }
}

#[unsafe(no_mangle)]
pub extern "C" fn meter_matrix(
    inputs: usize,
    outputs: usize,
    vertices: usize,
    table: &[i32],
    scratch: &mut [i64],
    matrix: &mut [i64],
) -> usize
    ensures measures { Measures (λ x. x) (matrix_call inputs outputs vertices (length scratch.old) table.now matrix.old) matrix.old matrix.new result }
    ensures scratch_after { ScratchAfter inputs outputs vertices table.now scratch.old scratch.new }
{
    number(queries::delay_matrix(inputs, outputs, vertices, table, scratch, matrix))
}

#[unsafe(no_mangle)]
pub extern "C" fn meter_margins(
    inputs: usize,
    outputs: usize,
    vertices: usize,
    table: &[i32],
    scratch: &[i64],
    given: &[i64],
    due: &[i64],
    arrival: &mut [i64],
    required: &mut [i64],
    margin: &mut [i64],
) -> usize
    ensures { Tells (margins inputs outputs vertices table.now scratch.now given.now due.now) (lists arrival.old required.old margin.old) (lists arrival.new required.new margin.new) result }
{
    number(margins::margins(
        inputs, outputs, vertices, table, scratch, given, due, arrival, required, margin,
    ))
}

// The vertex found and its saving are left, where there is one.
#[unsafe(no_mangle)]
pub extern "C" fn meter_find_star(
    inputs: usize,
    outputs: usize,
    vertices: usize,
    table: &[i32],
    scratch: &[i64],
    vertex: &mut usize,
    saving: &mut usize,
) -> usize
    ensures value { result ≡ number_of (find_star_call inputs outputs vertices (length scratch.now) table.now) }
    ensures left { (vertex.new, saving.new) ≡ star_left (find_star_call inputs outputs vertices (length scratch.now) table.now) (vertex.old, saving.old) }
{
    let answer = calls::find_star(inputs, outputs, vertices, table, scratch);
    if let Ok(Some(found)) = answer {
        *vertex = found.vertex;
        *saving = found.saving;
    }
    number(answer)
}

#[unsafe(no_mangle)]
pub extern "C" fn meter_prune(
    inputs: usize,
    outputs: usize,
    vertices: usize,
    table: &mut [i32],
    scratch: &mut [i64],
) -> usize
    ensures measures { Measures (λ x. x.table) (step_call inputs outputs vertices (length scratch.old) prune table.old) table.old table.new result }
    ensures scratch_after { ScratchAfter inputs outputs vertices table.old scratch.old scratch.new }
{
    number(steps::calls::prune(inputs, outputs, vertices, table, scratch))
}

#[unsafe(no_mangle)]
pub extern "C" fn meter_run(
    inputs: usize,
    outputs: usize,
    vertices: usize,
    table: &mut [i32],
    scratch: &mut [i64],
) -> usize
    ensures measures { Measures (λ x. x.table) (run_call inputs outputs vertices (length scratch.old) table.old) table.old table.new result }
    ensures scratch_after { ScratchAfter inputs outputs vertices table.old scratch.old scratch.new }
{
    number(run::calls::run(inputs, outputs, vertices, table, scratch))
}

#[unsafe(no_mangle)]
pub extern "C" fn meter_read(
    bytes: &[u8],
    table: &mut [i32],
    scratch: &[i64],
    library: &[i32],
) -> usize
    ensures value { result ≡ read_number (read_call library.now bytes.now table.old (length scratch.now)) }
    ensures table_after { table.new ≡ table_read library.now bytes.now table.old (length scratch.now) }
{
    number(read::read(bytes, table, scratch, library).map_err(|fault| fault.refusal))
}
