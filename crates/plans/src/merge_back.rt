// Merge back: the step's conditions, and the new table.
ghost use Rattle.timing.specs.Refusal.{verdict};
ghost use Rattle.std.specs.Prelude.{◌≡◌, ◌<◌, T, neg_ℤ};
ghost use Rattle.laws.specs.Bounded.{every};
ghost use Rattle.graph.specs.Delay.{at, ◌⊕◌};
ghost use Rattle.timing.specs.Limits.{delay_limit, absent_cell, fits};
ghost use Rattle.timing.specs.Table.{read_cell, graph_of};
ghost use Rattle.reduction.specs.MergeBack.{merge_fits, merged_back};
ghost use Rattle.paths.specs.Tables.{timing_graph, of_table};
ghost use Rattle.plans.specs.MergedRow.{redirected_cell, merged_cell, Redirectable, Mergeable, Drives};
ghost use Rattle.plans.specs.OnBoards.{InRange, merge_back_on, remade};

use crate::rewrite::Rewriting;
use crate::rows::Row;
use crate::{rows, shrink, sums};
use paths::{Board, Table, cells};
use timing::Refusal;

// What is added where d is taken off.
fn negated(d: i32) -> i32
    requires { T (fits delay_limit (at d)) }
    ensures { result ≡ neg_ℤ d }
{
    -d
}

// Whether the sums of the arcs into v and d fit.
fn column_sums_fit(table: &Table, v: usize, d: i32) -> bool
    requires v_lt_vertices { v < table.now.board.vertices }
    requires d_fits { T (fits delay_limit (at d)) }
    ensures { result ≡ every table.now.board.vertices (λ u. fits delay_limit (timing_graph table.now u v ⊕ at d)) }
{
    for u in 0..table.board.vertices {
        if !sums::sum_fits(table.cell(u, v), d) {
            return false;
        }
    }
    true
}

// The sums into v and the differences out of v. Of v→o itself 0 is left, which fits.
fn merge_fits(table: &Table, v: usize, o: usize, d: i32) -> bool
    requires in_range { of_table InRange table.now }
    requires drives { Drives table.now.board.vertices table.now.cells.now v o d }
    ensures { result ≡ merge_fits table.now.board.vertices (timing_graph table.now) v o d }
{
    column_sums_fit(table, v, d) && shrink::row_sums_fit(negated(d), table.row(v))
}

// The step's conditions, in document 01's order: the driver and its delay. A driver that will not do and a second arc get one refusal, so that the first found settles it.
pub fn merge_back_verdict(table: &Table, o: usize) -> Result<(usize, i32), Refusal>
    requires { of_table InRange table.now }
    ensures { verdict result ≡ of_table merge_back_on table.now o }
{
    if !rows::is_output(table.board, o) {
        return Err(Refusal::WrongVertex);
    }
    let Some(v) = table.next_into(o, 0) else {
        return Err(Refusal::WrongArcs);
    };
    if !rows::is_inner(table.board, v) || table.next_into(o, v + 1).is_some() {
        return Err(Refusal::WrongArcs);
    }
    let d = table.cell(v, o);
    if !merge_fits(table, v, o, d) {
        return Err(Refusal::DelayOutOfRange);
    }
    Ok((v, d))
}

// Output o is merged with its driver v, from which an arc of delay d leads to it: o takes the arcs of v too, with d taken off.
#[derive(Clone, Copy)]
pub struct MergeBack {
    pub v: usize,
    pub o: usize,
    pub d: i32,
}

impl MergeBack {
    // The row of another vertex than v: its arc to v, which was `into`, leads to o.
    fn redirect(&self, row: &mut [i32], into: i32)
        requires { Redirectable row.old (read_cell absent_cell into) self.now.v self.now.o self.now.d }
        ensures { row.new ≡ remade (redirected_cell row.old (read_cell absent_cell into) self.now.v self.now.o self.now.d) row.old }
    {
        row[self.o] = sums::sum(into, self.d);
        row[self.v] = Board::ABSENT;
    }

    // o's row takes the arcs of v too, in `via`, with d taken off.
    pub fn merge_row(&self, row: &mut [i32], via: &Row, u: usize)
        requires { Mergeable row.old via.now self.now.v self.now.o self.now.d }
        ensures { row.new ≡ remade (merged_cell row.old via.now self.now.v self.now.o self.now.d u) row.old }
    {
        if u == self.v {
            cells::clear(row);
            return;
        }
        let into = row[self.v];
        if u == self.o {
            shrink::join_row(row, via, negated(self.d));
        }
        self.redirect(row, into);
    }
}

impl Rewriting for MergeBack {
    ghost rewritten = { λ x g. merged_back x.v x.o x.d g };

    ghost rewritable = { λ x N t. Drives N t x.v x.o x.d × T (merge_fits N (graph_of N t) x.v x.o x.d) };

    ghost origin = { λ x. x.v };

    fn origin(&self) -> usize {
        self.v
    }

    fn rewrite_row(&self, row: &mut [i32], via: &Row, u: usize) {
        self.merge_row(row, via, u);
    }
}
