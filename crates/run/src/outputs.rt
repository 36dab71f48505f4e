// Share outputs, as a side of the delay matrix.
ghost use Rattle.std.specs.Prelude.{◌<◌, ◌≤◌, IfSome};
ghost use Rattle.timing.specs.Limits.{max_vertices};
ghost use Rattle.paths.specs.Checked.{Passable};
ghost use Rattle.plans.specs.Sharing.{Indexed};
ghost use Rattle.reach.specs.RowSets.{OneSource};
ghost use Rattle.run.specs.Sides;
ghost use Rattle.run.specs.Outputs.{StillSorted, OneSourceOf};

use crate::side::Side;
use paths::order::Order;
use paths::{Board, Table, cells, order};
use plans::share_outputs::ShareOutputs;
use plans::{rewrite, share_outputs};
use sets::Set;

// An order of the table's vertices and the sets of its rows, where they are known: the order until a share breaks it, the sets once a try has asked for them.
#[derive(Drop)]
pub struct Outputs {
    pub order: Option<Order>,
    pub rows: Option<[Set; Board::MAX_VERTICES]>,
}

impl Side for Outputs {
    ghost side = { Sides.Outputs };

    ghost given = { λ it board t. IfSome it.order (Passable board t) × Indexed board t it.rows };

    ghost knows = { λ it board t. IfSome it.order (Passable board t) × Indexed board t it.rows };

    fn begin(&mut self, _table: &Table) {}

    fn first(inputs: usize) -> usize {
        inputs
    }

    fn end(board: Board) -> usize {
        board.inputs + board.outputs
    }

    fn across(inputs: usize, _outputs: usize) -> usize {
        inputs
    }

    fn place(board: Board, v: usize, j: usize) -> usize {
        board.outputs * j + (v - board.inputs)
    }

    fn is_rich(table: &Table, v: usize) -> bool {
        share_outputs::enough_in(table, v)
    }

    fn is_open(&self) -> bool {
        true
    }

    // It does not matter here which refusal comes first, so that a path is looked for late.
    fn share(&mut self, board: Board, table: &mut [i32], a: usize, b: usize, e: i64) -> bool {
        if !cells::in_range(e) {
            return false;
        }
        let read = Table {
            board,
            cells: table,
        };
        let back = share_outputs::path_back(&read, self.order.as_ref(), &mut self.rows, a, b);
        let Ok(d) = share_outputs::outputs_saved(&read, back, b, e) else {
            return false;
        };
        let e = cells::narrow(d);
        rewrite::rewrite(board, table, &ShareOutputs { a, b, e });
        self.order = still_sorted(self.order, board.vertices, a, b);
        keep_up(&mut self.rows, board, a, b);
        true
    }
}

// An order of the table, where it is one still after an accepted share of outputs a, b: a stands before b.
pub fn still_sorted(order: Option<Order>, n: usize, a: usize, b: usize) -> Option<Order>
    requires { n ≤ max_vertices }
    ensures { IfSome result (StillSorted n a b order) }
{
    let order = order?;
    order::stands_before(&order, n, a, b).then_some(order)
}

// The sets of the rows, where they are there, after an accepted share of outputs a, b.
fn keep_up(rows: &mut Option<[Set; Board::MAX_VERTICES]>, board: Board, a: usize, b: usize)
    requires a_bound { a < board.vertices }
    requires b_bound { b < board.vertices }
    ensures { IfSome rows.new (OneSourceOf board.vertices a b rows.old) }
{
    if let Some(rows) = rows {
        one_source(rows, board, a, b);
    }
}

// Makes a the one source of b. A function of its own, for the borrow checker does not cover a slice of what an Option behind a `&mut` holds.
fn one_source(rows: &mut [Set; Board::MAX_VERTICES], board: Board, a: usize, b: usize)
    requires a_bound { a < board.vertices }
    requires b_bound { b < board.vertices }
    ensures { OneSource board.vertices a b rows.old rows.new }
{
    let n = board.vertices;
    reach::one_source(&mut rows[..n], a, b);
}
