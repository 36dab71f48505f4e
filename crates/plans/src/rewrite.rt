// The new table of a step that rewrites each row on its own, with one row to take arcs from.
ghost use Rattle.std.specs.Prelude.{◌≡◌, List, ℕ, ◌<◌, ℤ};
ghost use Rattle.laws.specs.Lists.{tabulate};
ghost use Rattle.graph.specs.Graph.{Graph};
ghost use Rattle.timing.specs.Table.{graph_of};
ghost use Rattle.paths.specs.Board.{Lent};
ghost use Rattle.plans.specs.Rewritten.{new_cell, RowOf};
ghost use Rattle.plans.specs.OnBoards.{changed};

use crate::rows;
use crate::rows::Row;
use paths::{Board, cells};

// A step with its vertices, and its delay where it has one.
pub trait Rewriting {
    // Document 01's new graph.
    ghost rewritten: { Self → Graph → Graph };

    // What is asked of a table of so many vertices.
    ghost rewritable: { Self → ℕ → List ℤ → Type 0 };

    // The row that arcs are taken from.
    ghost origin: { Self → ℕ };

    fn origin(&self) -> usize
        ensures value { result ≡ origin self.now }
        ensures below { (N : ℕ) (t : List ℤ) → rewritable self.now N t → result < N };

    // The row of u of a table, with the origin's in `via`. They stay two parameters, for the one is lent for writing and the other is the same for all rows: a
    // struct of both would be made for each row, and would be no plainer.
    fn rewrite_row(&self, row: &mut [i32], via: &Row, u: usize)
        requires { (N : ℕ) × (t : List ℤ) × rewritable self.now N t × RowOf N t via.now (origin self.now) u row.old }
        ensures { (N : ℕ) (t : List ℤ) → rewritable self.now N t → RowOf N t via.now (origin self.now) u row.old → row.new ≡ tabulate N (new_cell (rewritten self.now (graph_of N t)) u) };
}

// Board and table stay two parameters where the table is written, here and in pruning, stars, steps, run, files and text: of a table behind a struct's `&mut` the
// prover knows nothing once it has been lent for reading (tried in run). An order stays beside them, for a `Sorted` lends the table for reading only, and the
// step writes it afterwards.

// The structs with an `impl Rewriting` are what an accepted verdict gives, and what a share of inputs finds out besides; a shrink is the same before it. Before it
// the other steps' vertices stay parameters, here, in paths/src/order.rt, in reach and in run, as document 01's calls name them: there is no e, d or driver yet,
// or a refusal can still follow (`inputs_saved`, `outputs_saved`, `merge_fits`, and run's `share`). After it, what keeps an order or the sets of the rows up to
// date (`still_sorted`, `keep_up`, `one_source`) has no use for e.

// The one row is copied first, for two rows of one table cannot be lent together.
pub fn rewrite<R: Rewriting>(board: Board, table: &mut [i32], how: &R)
    requires lent { Lent board table.old }
    requires rewritable { R.rewritable how.now board.vertices table.old }
    ensures { table.new ≡ changed board (R.rewritten how.now) table.old }
{
    let n = board.vertices;
    let via = rows::row_copy(cells::row(table, n, how.origin()));
    for u in 0..n {
        let at = n * u;
        how.rewrite_row(&mut table[at..at + n], &via, u);
    }
}
