// Share outputs: the step's conditions, and a row of its new table.
ghost use Rattle.timing.specs.Refusal.{verdict};
ghost use Rattle.std.specs.Prelude.{◌≡◌, true, false, ℕ, ◌<◌, ◌≤◌, length};
ghost use Rattle.reduction.specs.ShareOutputs.{enough_in, outputs_shared};
ghost use Rattle.paths.specs.Board.{ScratchRoom, PastScratch};
ghost use Rattle.paths.specs.Tables.{timing_graph, IsSound, of_table};
ghost use Rattle.reach.specs.RowSets.{RowSets};
ghost use Rattle.plans.specs.SharedRow.{outputs_cell};
ghost use Rattle.plans.specs.Sharing.{TwoOutputs, Indexed, OrderOf, IsAhead, path_on};
ghost use Rattle.plans.specs.OnBoards.{two_outputs, share_outputs_on, outputs_saved_on, columns_difference, remade};

use crate::rewrite::Rewriting;
use crate::rows::Row;
use crate::{common, rows};
use paths::chain::Walk;
use paths::order::Order;
use paths::{Board, Sorted, Table, arrivals, cells, order};
use sets::Set;
use timing::Refusal;

// Output b is driven from output a: of the arcs into b, a's is left, with delay e.
#[derive(Clone, Copy)]
pub struct ShareOutputs {
    pub a: usize,
    pub b: usize,
    pub e: i32,
}

impl ShareOutputs {
    // The row of u: of the arcs into b, a's is left.
    pub fn share_outputs_row(&self, row: &mut [i32], u: usize)
        requires { self.now.b < length row.old }
        ensures { row.new ≡ remade (outputs_cell row.old self.now.a self.now.b self.now.e u) row.old }
    {
        row[self.b] = if u == self.a { self.e } else { Board::ABSENT };
    }
}

impl Rewriting for ShareOutputs {
    ghost rewritten = { λ x g. outputs_shared x.a x.b x.e g };

    ghost rewritable = { λ x N t. x.b < N };

    ghost origin = { λ x. x.b };

    // No arcs are taken: any row will do.
    fn origin(&self) -> usize {
        self.b
    }

    fn rewrite_row(&self, row: &mut [i32], _via: &Row, u: usize) {
        self.share_outputs_row(row, u);
    }
}

fn two_outputs(board: Board, a: usize, b: usize) -> bool
    ensures { result ≡ two_outputs board a b }
{
    rows::is_output(board, a) && rows::is_output(board, b) && a != b
}

// Column b less column a. The first input at which the difference is another settles it, before the delays from the others are looked for. The labelled loop is document 01's form.
fn columns_difference(
    sorted: &Sorted,
    scratch: &mut [i64],
    a: usize,
    b: usize,
) -> Result<i64, Refusal>
    requires scratch_room { ScratchRoom sorted.now.table.board scratch.old }
    requires two_outputs { TwoOutputs sorted.now.table.board a b }
    ensures result_value { verdict result ≡ of_table columns_difference sorted.now.table a b }
    ensures past_scratch { PastScratch sorted.now.table.board scratch.old scratch.new }
{
    let mut chain = [0; Board::MAX_CELLS];
    let walk = Walk::over(sorted, &mut chain);
    let m = walk.table.board.inputs;
    let mut seen = None;
    let mut i = 0;
    'compare: loop {
        if i >= m {
            break 'compare seen.ok_or(Refusal::NoCommonDifference);
        }
        arrivals::delays_from(&walk, i, scratch);
        match common::seen_next(seen, scratch[a], scratch[b]) {
            Ok(next) => seen = next,
            Err(refusal) => break 'compare Err(refusal),
        }
        i += 1;
    }
}

// Whether an order of the table, where there is one, has a before b.
fn is_ahead(order: Option<&Order>, board: Board, a: usize, b: usize) -> bool
    ensures { result ≡ true → IsAhead board.vertices order.entry a b }
{
    order.is_some_and(|order| order::stands_before(order, board.vertices, a, b))
}

// The sets of the table's rows.
fn row_sets(table: &Table) -> [Set; Board::MAX_VERTICES]
    ensures { RowSets table.now.board.vertices (timing_graph table.now) result }
{
    let mut rows = [Set::empty(); Board::MAX_VERTICES];
    reach::row_sets(table, &mut rows);
    rows
}

// Looks for a path from b to a. Where a is ahead of b in an order of the table, and where b→a is an arc, the sets of the table's rows are not asked for; they
// are made when they first are, in this call's frame, and kept in `rows`.
#[inline(never)]
pub fn path_back(
    table: &Table,
    order: Option<&Order>,
    rows: &mut Option<[Set; Board::MAX_VERTICES]>,
    a: usize,
    b: usize,
) -> bool
    requires sound { IsSound table.now }
    requires order_of { of_table OrderOf table.now order }
    requires two_outputs { TwoOutputs table.now.board a b }
    requires indexed { of_table Indexed table.now rows.old }
    ensures found_value { result ≡ of_table path_on table.now b a }
    ensures still_indexed { of_table Indexed table.now rows.new }
{
    if is_ahead(order, table.board, a, b) {
        return false;
    }
    if cells::is_arc(table.cell(b, a)) {
        return true;
    }
    if rows.is_none() {
        *rows = Some(row_sets(table));
    }
    // `get_or_insert_with` was tried: what it leaves is unknown to the proof. The arm of None is never taken.
    match &*rows {
        Some(made) => reach::leads(&made[..table.board.vertices], b, a),
        None => false,
    }
}

// Whether b has arcs enough for a share. Not one function with `enough_out`: the fan that is counted and the number differ, and both would be said at each call.
pub fn enough_in(table: &Table, b: usize) -> bool
    requires { b < table.now.board.vertices }
    ensures { result ≡ enough_in table.now.board.vertices (timing_graph table.now) b }
{
    table.fan_in(b) >= 2
}

// What is left to ask where e is the common difference, and `back` says whether a path leads from b to a.
pub fn outputs_saved(table: &Table, back: bool, b: usize, e: i64) -> Result<i64, Refusal>
    requires { b < table.now.board.vertices }
    ensures { (a : ℕ) → back ≡ of_table path_on table.now b a → verdict result ≡ of_table outputs_saved_on table.now a b e }
{
    if back {
        return Err(Refusal::PathBack);
    }
    common::saved(enough_in(table, b), e)
}

// The conditions of share outputs, in document 01's order.
pub fn share_outputs_verdict(
    sorted: &Sorted,
    scratch: &mut [i64],
    a: usize,
    b: usize,
) -> Result<i64, Refusal>
    requires { ScratchRoom sorted.now.table.board scratch.old }
    ensures result_value { verdict result ≡ of_table share_outputs_on sorted.now.table a b }
    ensures past_scratch { PastScratch sorted.now.table.board scratch.old scratch.new }
{
    if !two_outputs(sorted.table.board, a, b) {
        return Err(Refusal::WrongVertex);
    }
    let e = columns_difference(sorted, scratch, a, b)?;
    let back = path_back(&sorted.table, Some(&sorted.order), &mut None, a, b);
    outputs_saved(&sorted.table, back, b, e)
}
