// Shrink: the step's conditions, and the new table.
ghost use Rattle.timing.specs.Refusal.{verdict};
ghost use Rattle.std.specs.Prelude.{◌≡◌, ◌<◌, ◌≤◌, T, length};
ghost use Rattle.laws.specs.Bounded.{every};
ghost use Rattle.graph.specs.Delay.{at, ◌⊕◌};
ghost use Rattle.reduction.specs.Shrink.{shrunk};
ghost use Rattle.timing.specs.Limits.{max_vertices, delay_limit, absent_cell, fits};
ghost use Rattle.timing.specs.Table.{read_cell, graph_of};
ghost use Rattle.paths.specs.Cells.{cell_at};
ghost use Rattle.paths.specs.Tables.{of_table};
ghost use Rattle.plans.specs.ShrunkRow.{sums_fit, joined_cell, bypassed_cell, shrunk_cell, Shrinkable};
ghost use Rattle.plans.specs.OnBoards.{InRange, sums_through, relays, shrink_on, remade};

use crate::rewrite::Rewriting;
use crate::rows::Row;
use crate::{rows, sums};
use paths::{Board, Table, cells};
use timing::Refusal;

// Whether one arc leads to k, or one away from k.
fn is_relay(table: &Table, k: usize) -> bool
    requires { k < table.now.board.vertices }
    ensures { result ≡ of_table relays table.now k }
{
    let one_out = table.fan_out(k) == 1;
    one_out || table.one_into(k)
}

// Whether the sums of `into`, the delay of an arc into k, and the arcs out of k, in `via`, fit: those are from low to high. No sum with a delay from 0 on is too low.
pub fn row_sums_fit(into: i32, via: &[i32]) -> bool
    requires into_fits { T (fits delay_limit (at into)) }
    requires via_fits { T (every (length via.now) (λ t. fits delay_limit (cell_at via.now t))) }
    ensures { result ≡ sums_fit (length via.now) (at into) via.now }
{
    let high = cells::MAX_TICKS - into;
    if 0 <= into {
        return cells::row_upto(via, high);
    }
    let low = cells::MIN_TICKS - into;
    cells::row_within(via, low, high)
}

fn sums_fit(table: &Table, k: usize) -> bool
    requires in_range { of_table InRange table.now }
    requires k_lt_vertices { k < table.now.board.vertices }
    ensures { result ≡ of_table sums_through table.now k }
{
    let via = table.row(k);
    for u in 0..table.board.vertices {
        let into = table.cell(u, k);
        if cells::is_arc(into) && !row_sums_fit(into, via) {
            return false;
        }
    }
    true
}

// The step's conditions, in document 01's order.
pub fn shrink_verdict(table: &Table, k: usize) -> Result<(), Refusal>
    requires { of_table InRange table.now }
    ensures { verdict result ≡ of_table shrink_on table.now k }
{
    if !rows::is_inner(table.board, k) {
        return Err(Refusal::WrongVertex);
    }
    if !is_relay(table, k) {
        return Err(Refusal::WrongArcs);
    }
    if !sums_fit(table, k) {
        return Err(Refusal::DelayOutOfRange);
    }
    Ok(())
}

// A row with the arcs by way of k: `into` leads to k, and k's row is `via`.
pub fn join_row(row: &mut [i32], via: &Row, into: i32)
    requires row_len_bound { length row.old ≤ max_vertices }
    requires sums_fit { T (sums_fit (length row.old) (read_cell absent_cell into) via.now) }
    ensures { row.new ≡ remade (joined_cell row.old via.now (read_cell absent_cell into)) row.old }
{
    for (t, cell) in row.iter_mut().enumerate() {
        *cell = sums::join(*cell, into, via[t]);
    }
}

// The row of another vertex than k; it stays as it is where no arc leads to k.
fn bypass(row: &mut [i32], via: &Row, k: usize)
    requires { Shrinkable row.old via.now k }
    ensures { row.new ≡ remade (bypassed_cell row.old via.now k) row.old }
{
    let into = row[k];
    if cells::is_arc(into) {
        join_row(row, via, into);
        row[k] = Board::ABSENT;
    }
}

// Inner vertex k is shrunk.
#[derive(Clone, Copy)]
pub struct Shrink {
    pub k: usize,
}

impl Shrink {
    // The row of u: k has no arcs any more, and another goes on where it led to k.
    pub fn shrink_row(&self, row: &mut [i32], via: &Row, u: usize)
        requires { Shrinkable row.old via.now self.now.k }
        ensures { row.new ≡ remade (shrunk_cell row.old via.now self.now.k u) row.old }
    {
        if u == self.k {
            cells::clear(row);
        } else {
            bypass(row, via, self.k);
        }
    }
}

impl Rewriting for Shrink {
    ghost rewritten = { λ x g. shrunk x.k g };

    ghost rewritable = { λ x N t. (x.k < N) × T (every N (λ u. every N (λ v. fits delay_limit (graph_of N t u x.k ⊕ graph_of N t x.k v)))) };

    ghost origin = { λ x. x.k };

    fn origin(&self) -> usize {
        self.k
    }

    fn rewrite_row(&self, row: &mut [i32], via: &Row, u: usize) {
        self.shrink_row(row, via, u);
    }
}
