// The steps that name one vertex, over rising vertices: shrink for the inner ones, merge back for the outputs.
ghost use Rattle.std.specs.Prelude.{◌≡◌, ◌<◌};
ghost use Rattle.paths.specs.Checked.{Checked};
ghost use Rattle.run.specs.Running.{progress, Running, TriesStep, LeanOn, Leads};
ghost use Rattle.run.specs.VertexSteps;
ghost use Rattle.run.specs.VertexSteps.{vertex_step, first_vertex, kind_tries, vertex_end};

use paths::{Board, Table};
use steps::apply;

// A side of `side` has a range too, and that of the outputs stands there again: each end is one sum, and a trait above the two would be longer.
pub trait VertexStep {
    ghost kind: { VertexSteps.VertexStep };

    // The first vertex that it is tried at.
    fn first(board: Board) -> usize
        ensures { result ≡ first_vertex kind board.inputs board.outputs };

    // The number after the last.
    fn end(board: Board) -> usize
        ensures { result ≡ vertex_end board kind };

    // The step at v, on a lean table.
    fn try_at(board: Board, table: &mut [i32], v: usize) -> bool
        requires checked { Checked board table.old }
        requires lean_on { LeanOn board table.old }
        requires v_lt_vertices { v < board.vertices }
        ensures { TriesStep board (vertex_step kind v) table.old table.new result };
}

#[derive(Clone, Copy)]
pub struct Shrink;

#[derive(Clone, Copy)]
pub struct MergeBack;

impl VertexStep for Shrink {
    ghost kind = { VertexSteps.Shrink };

    fn first(board: Board) -> usize {
        board.inputs + board.outputs
    }

    fn end(board: Board) -> usize {
        board.vertices
    }

    // On a lean table an inner vertex without arcs out has none in: it is refused without a look down its column.
    fn try_at(board: Board, table: &mut [i32], v: usize) -> bool {
        let read = Table {
            board,
            cells: table,
        };
        if read.fan_out(v) == 0 {
            return false;
        }
        apply::apply_shrink(board, table, v).is_ok()
    }
}

impl VertexStep for MergeBack {
    ghost kind = { VertexSteps.MergeBack };

    fn first(board: Board) -> usize {
        board.inputs
    }

    fn end(board: Board) -> usize {
        board.inputs + board.outputs
    }

    fn try_at(board: Board, table: &mut [i32], v: usize) -> bool {
        apply::apply_merge_back(board, table, v).is_ok()
    }
}

// All tries of a kind, each on the table as it then is: prune has been tried, so that it is lean, and each of them leaves it so.
pub fn vertex_tries<K: VertexStep>(board: Board, table: &mut [i32], steps: usize) -> usize
    requires running { Running board (progress table.old steps) }
    requires lean_on { LeanOn board table.old }
    ensures { Leads board (kind_tries board K.kind) table.old steps table.new result }
{
    let mut done = steps;
    for v in K::first(board)..K::end(board) {
        done += usize::from(K::try_at(board, table, v));
    }
    done
}
