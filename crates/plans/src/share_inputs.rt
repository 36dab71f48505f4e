// Share inputs: the step's conditions, and a row of its new table.
ghost use Rattle.timing.specs.Refusal.{verdict, accepted};
ghost use Rattle.std.specs.Prelude.{◌≡◌, ◌&&◌, ◌+◌, ℕ, ◌<◌, ◌≤◌, ltb, ℤ, pos, length, get_or};
ghost use Rattle.timing.specs.Limits.{max_vertices};
ghost use Rattle.reduction.specs.ShareInputs.{inputs_shared, enough_out, inputs_reduced};
ghost use Rattle.paths.specs.Board.{ScratchRoom, PastScratch};
ghost use Rattle.paths.specs.Tables.{timing_graph, IsSound, of_table};
ghost use Rattle.paths.specs.Checked.{Checked};
ghost use Rattle.plans.specs.SharedRow.{only_arc, inputs_cell, without_arcs, Undriven};
ghost use Rattle.plans.specs.Sharing.{TwoVectors, SoleDrivers, DriversOf};
ghost use Rattle.plans.specs.OnBoards.{two_inputs, share_inputs_on, leaves_undriven_on, inputs_saved_on, rows_difference, vectors_difference, changed, remade};

use crate::rewrite::Rewriting;
use crate::rows::Row;
use crate::{common, rewrite, rows};
use paths::chain::Walk;
use paths::{Board, Sorted, Table, arrivals, cells};
use sets::Set;
use timing::Refusal;

// One arc alone, to k.
fn only_arc(row: &mut [i32], k: usize, d: i32)
    requires { k < length row.old }
    ensures { row.new ≡ remade (only_arc k d) row.old }
{
    cells::clear(row);
    row[k] = d;
}

// The arcs of another row.
fn take_over(row: &mut [i32], via: &Row)
    requires { length row.old ≤ max_vertices }
    ensures { row.new ≡ remade (λ t. get_or via.now t (pos 0)) row.old }
{
    let n = row.len();
    row.copy_from_slice(&via[..n]);
}

// Inputs a and b are shared by way of k: k takes over a's arcs, and a and b keep one to k, with delays 0 and e. The arcs of the vertices in `undriven` go.
#[derive(Clone, Copy)]
pub struct ShareInputs {
    pub a: usize,
    pub b: usize,
    pub k: usize,
    pub e: i32,
    pub undriven: Set,
}

impl ShareInputs {
    // The row of u: k takes over a's arcs, in `via`, and a and b keep one to k.
    pub fn share_inputs_row(&self, row: &mut [i32], via: &Row, u: usize)
        requires row_len_bound { length row.old ≤ max_vertices }
        requires k_in_bounds { self.now.k < length row.old }
        ensures { row.new ≡ remade (inputs_cell row.old via.now self.now.a self.now.b self.now.k self.now.e u) row.old }
    {
        if u == self.a {
            only_arc(row, self.k, 0);
        } else if u == self.b {
            only_arc(row, self.k, self.e);
        } else if u == self.k {
            take_over(row, via);
        }
    }
}

impl Rewriting for ShareInputs {
    ghost rewritten = { λ x g. without_arcs x.undriven (inputs_shared x.a x.b x.k x.e g) };

    ghost rewritable = { λ x N t. (x.a < N) × (x.k < N) };

    ghost origin = { λ x. x.a };

    fn origin(&self) -> usize {
        self.a
    }

    fn rewrite_row(&self, row: &mut [i32], via: &Row, u: usize) {
        if self.undriven.has(u) {
            cells::clear(row);
        } else {
            self.share_inputs_row(row, via, u);
        }
    }
}

fn two_inputs(board: Board, a: usize, b: usize, k: usize) -> bool
    ensures { result ≡ (two_inputs board a b && ltb k board.vertices) }
{
    let m = board.inputs;
    a < m && b < m && a != b && k < board.vertices
}

// The outputs' delays are compared: those in the second N cells less those in the first N.
fn outputs_difference(board: Board, delays: &[i64]) -> Result<i64, Refusal>
    requires { TwoVectors board delays.now }
    ensures { verdict result ≡ vectors_difference board delays.now }
{
    let m = board.inputs;
    let o = board.outputs;
    let n = board.vertices;
    let end = m + o;
    let from = n + m;
    let to = from + o;
    common::common_difference(&delays[m..end], &delays[from..to])
}

// Row b less row a.
fn rows_difference(sorted: &Sorted, scratch: &mut [i64], a: usize, b: usize) -> Result<i64, Refusal>
    requires scratch_room { ScratchRoom sorted.now.table.board scratch.old }
    requires a_lt_inputs { a < sorted.now.table.board.inputs }
    requires b_lt_inputs { b < sorted.now.table.board.inputs }
    ensures result_value { verdict result ≡ of_table rows_difference sorted.now.table a b }
    ensures past_scratch { PastScratch sorted.now.table.board scratch.old scratch.new }
{
    let mut chain = [0; Board::MAX_CELLS];
    let walk = Walk::over(sorted, &mut chain);
    let n = walk.table.board.vertices;
    arrivals::delays_from(&walk, a, scratch);
    arrivals::delays_from(&walk, b, &mut scratch[n..]);
    outputs_difference(walk.table.board, scratch)
}

// Whether b has arcs enough to share.
pub fn enough_out(table: &Table, b: usize) -> bool
    requires { b < table.now.board.vertices }
    ensures { result ≡ enough_out table.now.board.vertices (timing_graph table.now) b }
{
    table.fan_out(b) >= 3
}

// The vertices that alone drive some inner vertex with arcs out. After a share of one of them, such arcs are left that go; after any, where an inner vertex with arcs
// out has no arc in.
fn sole_drivers(table: &Table) -> Set
    ensures { of_table SoleDrivers table.now result }
{
    let board = table.board;
    let n = board.vertices;
    let mut drivers = Set::empty();
    for u in board.inputs + board.outputs..n {
        if table.fan_out(u) > 0 {
            let Some(v) = table.next_into(u, 0) else {
                return Set::range(0, n);
            };
            if table.next_into(u, v + 1).is_none() {
                drivers = drivers.plus(v);
            }
        }
    }
    drivers
}

// Whether arcs are left that go after a share of b. The vertices of which that is so are looked for when it is first asked, and kept in `drivers`.
fn leaves_undriven(table: &Table, drivers: &mut Option<Set>, b: usize) -> bool
    requires b_lt_vertices { b < table.now.board.vertices }
    requires drivers_of { of_table DriversOf table.now drivers.old }
    ensures leaves_value { result ≡ of_table leaves_undriven_on table.now b }
    ensures still_drivers { of_table DriversOf table.now drivers.new }
{
    if drivers.is_none() {
        *drivers = Some(sole_drivers(table));
    }
    // The arm of None is never taken.
    match *drivers {
        Some(made) => made.has(b),
        None => false,
    }
}

// What is left to ask where e is the common difference.
pub fn inputs_saved(
    table: &Table,
    drivers: &mut Option<Set>,
    b: usize,
    e: i64,
) -> Result<i64, Refusal>
    requires b_lt_vertices { b < table.now.board.vertices }
    requires drivers_of { of_table DriversOf table.now drivers.old }
    ensures result_value { verdict result ≡ of_table inputs_saved_on table.now b e }
    ensures still_drivers { of_table DriversOf table.now drivers.new }
{
    let out = table.fan_out(b);
    let pays = out >= 3 || out == 2 && leaves_undriven(table, drivers, b);
    common::saved(pays, e)
}

// The conditions of share inputs, in document 01's order.
pub fn share_inputs_verdict(
    sorted: &Sorted,
    scratch: &mut [i64],
    a: usize,
    b: usize,
    k: usize,
) -> Result<i64, Refusal>
    requires { ScratchRoom sorted.now.table.board scratch.old }
    ensures result_value { verdict result ≡ of_table share_inputs_on sorted.now.table a b k }
    ensures past_scratch { PastScratch sorted.now.table.board scratch.old scratch.new }
{
    if !two_inputs(sorted.table.board, a, b, k) {
        return Err(Refusal::WrongVertex);
    }
    if !rows::is_free(&sorted.table, k) {
        return Err(Refusal::NumberTaken);
    }
    let e = rows_difference(sorted, scratch, a, b)?;
    inputs_saved(&sorted.table, &mut None, b, e)
}

// The vertices whose arcs go after a share of b by way of k: none where three arcs leave b, or the inner ones that no path leads to from any other.
fn undriven(table: &Table, b: usize, k: usize) -> Set
    requires sound { IsSound table.now }
    requires b_lt_vertices { b < table.now.board.vertices }
    requires k_lt_vertices { k < table.now.board.vertices }
    ensures { (a : ℕ) (e : ℤ) → of_table share_inputs_on table.now a b k ≡ accepted e → of_table Undriven table.now a b k e result }
{
    if enough_out(table, b) {
        return Set::empty();
    }
    let n = table.board.vertices;
    let inner = table.board.inputs + table.board.outputs;
    let driven = reach::spread(table, Set::range(0, inner).plus(k), b);
    Set::range(inner, n).without(driven)
}

// The table after an accepted share.
pub fn share(board: Board, table: &mut [i32], a: usize, b: usize, k: usize, e: i32)
    requires checked { Checked board table.old }
    requires accepted { share_inputs_on board table.old a b k ≡ accepted e }
    ensures { table.new ≡ changed board (inputs_reduced board.inputs board.outputs board.vertices a b k e) table.old }
{
    let read = Table {
        board,
        cells: table,
    };
    let undriven = undriven(&read, b, k);
    let how = ShareInputs {
        a,
        b,
        k,
        e,
        undriven,
    };
    rewrite::rewrite(board, table, &how);
}
