// The six steps as calls: any arguments, the checks first, the count of the arcs left last.
ghost use Rattle.std.specs.Prelude.{length};
ghost use Rattle.reduction.specs.Steps.{shrink, share_inputs, share_outputs, prune, merge_back, star, step_call};
ghost use Rattle.paths.specs.Queries.{ScratchAfter};
ghost use Rattle.steps.specs.Reduces.{Reduces};

use crate::step::{MergeBack, Prune, ShareInputs, ShareOutputs, Shrink, Star, Step};
use paths::{Table, checks};
use timing::Refusal;

// Document 01 hands each call its sizes, its table and its scratch one by one, and so does C: they stay parameters side by side in every entry, and in what an
// entry hands them on to until the checks have made a board and a table of them (`reduce` here, `paths::checks`, host's functions over runs of bytes).

// The checks, then the step.
pub fn reduce<S: Step>(
    inputs: usize,
    outputs: usize,
    vertices: usize,
    table: &mut [i32],
    scratch: &mut [i64],
    step: &S,
) -> Result<usize, Refusal>
    ensures reduces { Reduces (step_call inputs outputs vertices (length scratch.old) (S.meaning step.now) table.old) table.old table.new result }
    ensures scratch_after { ScratchAfter inputs outputs vertices table.old scratch.old scratch.new }
{
    let sorted = checks::checked(inputs, outputs, vertices, table, scratch.len())?;
    let board = sorted.table.board;
    let order = sorted.order;
    step.apply(board, table, &order, scratch)?;
    let left = Table {
        board,
        cells: table,
    };
    Ok(left.arcs())
}

// Shrinks inner vertex k.
pub fn shrink(
    inputs: usize,
    outputs: usize,
    vertices: usize,
    table: &mut [i32],
    scratch: &mut [i64],
    k: usize,
) -> Result<usize, Refusal>
    ensures reduces { Reduces (step_call inputs outputs vertices (length scratch.old) (shrink k) table.old) table.old table.new result }
    ensures scratch_after { ScratchAfter inputs outputs vertices table.old scratch.old scratch.new }
{
    reduce(inputs, outputs, vertices, table, scratch, &Shrink { k })
}

// Shares input a's arcs with input b, by the new number k.
pub fn share_inputs(
    inputs: usize,
    outputs: usize,
    vertices: usize,
    table: &mut [i32],
    scratch: &mut [i64],
    a: usize,
    b: usize,
    k: usize,
) -> Result<usize, Refusal>
    ensures reduces { Reduces (step_call inputs outputs vertices (length scratch.old) (share_inputs a b k) table.old) table.old table.new result }
    ensures scratch_after { ScratchAfter inputs outputs vertices table.old scratch.old scratch.new }
{
    reduce(
        inputs,
        outputs,
        vertices,
        table,
        scratch,
        &ShareInputs { a, b, k },
    )
}

// Drives output b from output a.
pub fn share_outputs(
    inputs: usize,
    outputs: usize,
    vertices: usize,
    table: &mut [i32],
    scratch: &mut [i64],
    a: usize,
    b: usize,
) -> Result<usize, Refusal>
    ensures reduces { Reduces (step_call inputs outputs vertices (length scratch.old) (share_outputs a b) table.old) table.old table.new result }
    ensures scratch_after { ScratchAfter inputs outputs vertices table.old scratch.old scratch.new }
{
    reduce(
        inputs,
        outputs,
        vertices,
        table,
        scratch,
        &ShareOutputs { a, b },
    )
}

// Drops the arcs that decide no delay.
pub fn prune(
    inputs: usize,
    outputs: usize,
    vertices: usize,
    table: &mut [i32],
    scratch: &mut [i64],
) -> Result<usize, Refusal>
    ensures reduces { Reduces (step_call inputs outputs vertices (length scratch.old) prune table.old) table.old table.new result }
    ensures scratch_after { ScratchAfter inputs outputs vertices table.old scratch.old scratch.new }
{
    reduce(inputs, outputs, vertices, table, scratch, &Prune)
}

// Merges output o with its driver.
pub fn merge_back(
    inputs: usize,
    outputs: usize,
    vertices: usize,
    table: &mut [i32],
    scratch: &mut [i64],
    o: usize,
) -> Result<usize, Refusal>
    ensures reduces { Reduces (step_call inputs outputs vertices (length scratch.old) (merge_back o) table.old) table.old table.new result }
    ensures scratch_after { ScratchAfter inputs outputs vertices table.old scratch.old scratch.new }
{
    reduce(inputs, outputs, vertices, table, scratch, &MergeBack { o })
}

// Leads the arcs from sources to targets through the new centre k.
pub fn star(
    inputs: usize,
    outputs: usize,
    vertices: usize,
    table: &mut [i32],
    scratch: &mut [i64],
    sources: &[usize],
    targets: &[usize],
    k: usize,
) -> Result<usize, Refusal>
    ensures reduces { Reduces (step_call inputs outputs vertices (length scratch.old) (star sources.now targets.now k) table.old) table.old table.new result }
    ensures scratch_after { ScratchAfter inputs outputs vertices table.old scratch.old scratch.new }
{
    let star = Star {
        sources,
        targets,
        k,
    };
    reduce(inputs, outputs, vertices, table, scratch, &star)
}
