// Arrivals: each vertex in topological order pushes its own along its arcs, so that every arc that its chain walks is looked at once, and no other cell.
ghost use Rattle.std.specs.Prelude.{IfSome, ◌≡◌, ◌≢◌, ◌+◌, ◌*◌, ◌<◌, ◌≤◌, T, pos, length, get_or};
ghost use Rattle.laws.specs.Lists.{tabulate};
ghost use Rattle.laws.specs.Lent.{Past};
ghost use Rattle.timing.specs.Limits.{max_vertices, delay_limit, absent_cell, absent_wide, fits};
ghost use Rattle.timing.specs.Table.{read_cell};
ghost use Rattle.timing.specs.Delays.{arrival_in};
ghost use Rattle.paths.specs.Tables.{of_table};
ghost use Rattle.paths.specs.Arrivals.{reached_limit, stored, filled, only_at, times_at, Starts, Given, Reached, Gains, Offered, OfferedEach, Pushed, lane, EachLane, latest_from, delays_from, arrivals_from, DelayLanes};

use crate::board::Board;
use crate::cells;
use crate::chain::{LinkedRow, Walk};

// Whether what comes over an arc is later than what is there. An absent arrival is below every other.
pub fn gains(best: i64, a: i64, cell: i32) -> bool
    requires reached { Reached a }
    requires cell_nonzero { cell ≢ absent_cell }
    requires cell_fits { T (fits delay_limit (read_cell absent_cell cell)) }
    ensures { Gains best a cell result }
{
    best < a + i64::from(cell)
}

// The later of what is at x and what comes over an arc. A cell is stored only where it changes: a store in each turn costs more.
fn offer(f: &mut [i64], x: usize, a: i64, cell: i32)
    requires x_in_bounds { x < length f.old }
    requires reached { Reached a }
    requires cell_nonzero { cell ≢ absent_cell }
    requires cell_fits { T (fits delay_limit (read_cell absent_cell cell)) }
    ensures { Offered x a cell f.old f.new }
{
    if gains(f[x], a, cell) {
        f[x] = a + i64::from(cell);
    }
}

// Here n is the length of a lane, and f holds several: it is no length of f. How many lanes there may be is a clause: a const parameter has no bound in its type.

// Offers v what comes over one arc in each lane: from a[l] in lane l.
fn offer_each<const LANES: usize>(f: &mut [i64], n: usize, v: usize, a: [i64; LANES], cell: i32)
    requires room { n * LANES ≤ length f.old }
    requires v_lt_n { v < n }
    requires reached { EachLane LANES (λ l. Reached (get_or a l (pos 0))) }
    requires cell_there { cell ≢ absent_cell }
    requires cell_fits { T (fits delay_limit (read_cell absent_cell cell)) }
    ensures { OfferedEach LANES n v (λ l. get_or a.entry l (pos 0)) cell f.old f.new }
{
    for l in 0..LANES {
        offer(f, n * l + v, a[l], cell);
    }
}

// Pushes on along the arcs that a row's chain walks, from a[l] in lane l: the lanes share the walk, which goes from link to link, along no slice.
fn push<const LANES: usize>(row: &LinkedRow, a: [i64; LANES], f: &mut [i64])
    requires some { 1 ≤ LANES }
    requires few { LANES ≤ max_vertices }
    requires reached { EachLane LANES (λ l. Reached (get_or a l (pos 0))) }
    requires room { length row.now.cells.now * LANES ≤ length f.old }
    ensures pushed { EachLane LANES (λ l. Pushed (length row.now.cells.now) row.now.cells.now row.now.links.now (get_or a.entry l (pos 0)) (lane (length row.now.cells.now) l f.old) (lane (length row.now.cells.now) l f.new)) }
    ensures past { Past (length row.now.cells.now * LANES) f.old f.new }
{
    let n = row.cells.len();
    let mut v = usize::from(row.links[0]);
    while v < n {
        offer_each(f, n, v, a, row.cells[v]);
        v = usize::from(row.links[v]);
    }
}

// Pushes on what is at u, where it is reached.
fn push_from(row: &LinkedRow, f: &mut [i64], u: usize)
    requires room { length row.now.cells.now ≤ length f.old }
    requires u_in_bounds { u < length row.now.cells.now }
    requires near { T (fits reached_limit (arrival_in f.old u)) }
    ensures { Pushed (length row.now.cells.now) row.now.cells.now row.now.links.now (get_or f.old u (pos 0)) f.old f.new }
{
    let a = f[u];
    if a != Board::ABSENT_WIDE {
        push(row, [a], f);
    }
}

// The times that start at the vertices from `at` on, and no signal at any other.
pub fn start(f: &mut [i64], at: usize, times: &[i64])
    requires { at + length times.now ≤ length f.old }
    ensures { f.new ≡ tabulate (length f.old) (times_at at times.now) }
{
    f.fill(Board::ABSENT_WIDE);
    cells::copy(&mut f[at..at + times.len()], times);
}

// What is at u in each lane, where there is something in all of them.
fn all_at<const LANES: usize>(f: &[i64], n: usize, u: usize) -> Option<[i64; LANES]>
    requires few { LANES ≤ max_vertices }
    requires room { n * LANES ≤ length f.now }
    requires u_lt_n { u < n }
    ensures { IfSome result (λ a. EachLane LANES (λ l. (get_or a l (pos 0) ≡ get_or f.now (n * l + u) (pos 0)) × (get_or a l (pos 0) ≢ absent_wide))) }
{
    let mut a = [0; LANES];
    let mut all = true;
    for l in 0..LANES {
        a[l] = f[n * l + u];
        all &= a[l] != Board::ABSENT_WIDE;
    }
    if all { Some(a) } else { None }
}

// Pushes on what is at u in each lane.
fn push_each<const LANES: usize>(row: &LinkedRow, f: &mut [i64], u: usize)
    requires some { 1 ≤ LANES }
    requires few { LANES ≤ max_vertices }
    requires u_in_bounds { u < length row.now.cells.now }
    requires room { length row.now.cells.now * LANES ≤ length f.old }
    requires near { EachLane LANES (λ l. T (fits reached_limit (arrival_in (lane (length row.now.cells.now) l f.old) u))) }
    ensures pushed { EachLane LANES (λ l. Pushed (length row.now.cells.now) row.now.cells.now row.now.links.now (get_or (lane (length row.now.cells.now) l f.old) u (pos 0)) (lane (length row.now.cells.now) l f.old) (lane (length row.now.cells.now) l f.new)) }
    ensures past { Past (length row.now.cells.now * LANES) f.old f.new }
{
    let n = row.cells.len();
    if let Some(a) = all_at::<LANES>(f, n, u) {
        push(row, a, f);
        return;
    }
    for l in 0..LANES {
        let at = n * l;
        push_from(row, &mut f[at..at + n], u);
    }
}

// The latest arrivals in each lane, where its N cells have those that start at each vertex.
fn propagate_each<const LANES: usize>(walk: &Walk, f: &mut [i64])
    requires some { 1 ≤ LANES }
    requires few { LANES ≤ max_vertices }
    requires room { walk.now.table.board.vertices * LANES ≤ length f.old }
    requires starts { EachLane LANES (λ l. Starts walk.now.table.board.vertices (lane walk.now.table.board.vertices l f.old)) }
    ensures each_lane { EachLane LANES (λ l. lane walk.now.table.board.vertices l f.new ≡ filled walk.now.table.board.vertices (of_table latest_from walk.now.table (lane walk.now.table.board.vertices l f.old)) (lane walk.now.table.board.vertices l f.old)) }
    ensures past { Past (walk.now.table.board.vertices * LANES) f.old f.new }
{
    for p in 0..walk.table.board.vertices {
        let u = usize::from(walk.order[p]);
        push_each::<LANES>(&walk.row(u), f, u);
    }
}

// The latest arrivals, where the first N cells of f have those that start at each vertex.
pub fn propagate(walk: &Walk, f: &mut [i64])
    requires { Starts walk.now.table.board.vertices f.old }
    ensures { f.new ≡ filled walk.now.table.board.vertices (of_table latest_from walk.now.table f.old) f.old }
{
    propagate_each::<1>(walk, f);
}

// A signal that starts at i in the first lane, at i + 1 in the next, and so on.
fn start_each<const LANES: usize>(f: &mut [i64], n: usize, i: usize)
    requires room { n * LANES ≤ length f.old }
    requires i_bound { i + LANES ≤ n }
    ensures each_lane { EachLane LANES (λ l. lane n l f.new ≡ stored n (only_at (i + l)) (lane n l f.old)) }
    ensures past { Past (n * LANES) f.old f.new }
{
    for l in 0..LANES {
        let at = n * l;
        start(&mut f[at..at + n], i + l, &[0]);
    }
}

// The greatest delays from vertex i, 0 at i itself.
pub fn delays_from(walk: &Walk, i: usize, f: &mut [i64])
    requires i_lt_vertices { i < walk.now.table.board.vertices }
    requires vertices_in_bounds { walk.now.table.board.vertices ≤ length f.old }
    ensures { f.new ≡ filled walk.now.table.board.vertices (of_table delays_from walk.now.table i) f.old }
{
    delays_from_each::<1>(walk, i, f);
}

// The arrivals at every vertex, in one pass.
pub fn arrivals(walk: &Walk, inputs: &[i64], f: &mut [i64])
    requires given { Given walk.now.table.board.inputs inputs.now }
    requires vertices_in_bounds { walk.now.table.board.vertices ≤ length f.old }
    ensures { f.new ≡ filled walk.now.table.board.vertices (of_table arrivals_from walk.now.table inputs.now) f.old }
{
    let n = walk.table.board.vertices;
    start(&mut f[..n], 0, inputs);
    propagate(walk, f);
}

// The greatest delays from vertex i and those after it, a lane each, in one pass.
pub fn delays_from_each<const LANES: usize>(walk: &Walk, i: usize, f: &mut [i64])
    requires some { 1 ≤ LANES }
    requires i_bound { i + LANES ≤ walk.now.table.board.vertices }
    requires room { walk.now.table.board.vertices * LANES ≤ length f.old }
    ensures delay_lanes { of_table DelayLanes walk.now.table LANES i f.old f.new }
    ensures past { Past (walk.now.table.board.vertices * LANES) f.old f.new }
{
    start_each::<LANES>(f, walk.table.board.vertices, i);
    propagate_each::<LANES>(walk, f);
}
