// Prune: the arcs that decide a delay are marked, by a pass forwards and a pass backwards from each input; then the others go.
ghost use Rattle.std.specs.Prelude.{◌≡◌, ◌≢◌, false, not, cond, ◌&&◌, ◌||◌, ◌+◌, ◌*◌, ◌<◌, ◌≤◌, T, pos, length, get_or};
ghost use Rattle.laws.specs.Bounded.{some};
ghost use Rattle.laws.specs.Lent.{Past};
ghost use Rattle.graph.specs.Delay.{present};
ghost use Rattle.timing.specs.Limits.{delay_limit, absent_cell, absent_wide, fits};
ghost use Rattle.timing.specs.Table.{read_cell};
ghost use Rattle.reduction.specs.Outcome.{is_output};
ghost use Rattle.reduction.specs.Steps.{prune};
ghost use Rattle.paths.specs.Board.{Lent, ScratchRoom, PastScratch};
ghost use Rattle.paths.specs.Cells.{cell_at};
ghost use Rattle.paths.specs.Chain.{walked_at};
ghost use Rattle.paths.specs.Arrivals.{Reached};
ghost use Rattle.paths.specs.Checked.{Passable};
ghost use Rattle.paths.specs.Tables.{timing_graph, of_table};
ghost use Rattle.plans.specs.OnBoards.{changed, remade, Applies};
ghost use Rattle.pruning.specs.TightArcs.{tight};
ghost use Rattle.pruning.specs.PruneMarks.{RowMarked, MarkedEach, FromInput, Swept, DecidingMarked, Unmarked, some_unmarked, marked_arcs};

use paths::chain::{LinkedRow, Walk};
use paths::order::Order;
use paths::{Board, Sorted, Table, arrivals, cells};
use plans::rows;
use timing::Refusal;

// Whether the arc is tight: what is at its head came over it.
fn is_tight(a: i64, cell: i32, w: i64) -> bool
    requires reached { Reached a }
    requires cell_nonzero { cell ≢ absent_cell }
    requires cell_in_range { T (fits delay_limit (read_cell absent_cell cell)) }
    ensures { result ≡ tight (read_cell absent_wide a) (read_cell absent_cell cell) (read_cell absent_wide w) }
{
    w == a + i64::from(cell)
}

// Marks the arcs that a row's chain walks that are tight. Answers whether there is one. The walk goes from link to link, along no slice.
fn mark_row(row: &LinkedRow, a: i64, f: &[i64], marks: &mut [bool]) -> bool
    requires reached { Reached a }
    requires f_room { length row.now.cells.now ≤ length f.now }
    requires marks_len { length marks.old ≡ length row.now.cells.now }
    ensures { RowMarked (walked_at row.now.cells.now row.now.links.now) a f.now marks.old marks.new result }
{
    let mut found = false;
    let mut v = usize::from(row.links[0]);
    while v < row.cells.len() {
        if is_tight(a, row.cells[v], f[v]) {
            marks[v] = true;
            found = true;
        }
        v = usize::from(row.links[v]);
    }
    found
}

// Whether a vertex that is reached is alive, where `found` says what its row answered: an output, or one with a tight arc to a vertex that is.
fn is_alive(board: Board, v: usize, found: bool) -> bool
    ensures { result ≡ (is_output board.inputs board.outputs v || found) }
{
    found || rows::is_output(board, v)
}

// Marks the arcs that decide a delay from the input whose greatest delays are in f: the vertices from the last to the first.
// One that is not alive loses its delay, so that no arc to it is tight.
fn sweep(walk: &Walk, f: &mut [i64], marks: &mut [bool])
    requires from_input { of_table FromInput walk.now.table f.old }
    requires marks_room { walk.now.table.board.vertices * walk.now.table.board.vertices ≤ length marks.old }
    ensures swept { of_table Swept walk.now.table f.old marks.old marks.new }
    ensures past { Past walk.now.table.board.vertices f.old f.new }
{
    let n = walk.table.board.vertices;
    for p in (0..n).rev() {
        let u = usize::from(walk.order[p]);
        let a = f[u];
        if a != Board::ABSENT_WIDE {
            let at = n * u;
            let end = at + n;
            let found = mark_row(&walk.row(u), a, f, &mut marks[at..end]);
            if !is_alive(walk.table.board, u, found) {
                f[u] = Board::ABSENT_WIDE;
            }
        }
    }
}

// Marks the arcs that decide a delay from input i, or one from the inputs after it: as many inputs as there are lanes, with one pass forwards.
fn mark_from<const LANES: usize>(walk: &Walk, i: usize, f: &mut [i64], marks: &mut [bool])
    requires some { 1 ≤ LANES }
    requires i_bound { i + LANES ≤ walk.now.table.board.inputs }
    requires f_room { walk.now.table.board.vertices * LANES ≤ length f.old }
    requires marks_room { walk.now.table.board.vertices * walk.now.table.board.vertices ≤ length marks.old }
    ensures marked_each { of_table (MarkedEach LANES i) walk.now.table marks.old marks.new }
    ensures past { Past (walk.now.table.board.vertices * LANES) f.old f.new }
{
    arrivals::delays_from_each::<LANES>(walk, i, f);
    let n = walk.table.board.vertices;
    for l in 0..LANES {
        let at = n * l;
        let end = at + n;
        sweep(walk, &mut f[at..end], marks);
    }
}

// Marks the arcs that decide a delay; other marks stay. Not one function with `queries::fill_matrix`, which goes by fours too: what is done for four lanes and for one would
// be a trait with a law, for no closure has a const parameter.
pub fn prune_marks(sorted: &Sorted, scratch: &mut [i64], marks: &mut [bool])
    requires scratch_room { ScratchRoom sorted.now.table.board scratch.old }
    requires marks_room { sorted.now.table.board.vertices * sorted.now.table.board.vertices ≤ length marks.old }
    ensures deciding_marked { of_table DecidingMarked sorted.now.table marks.old marks.new }
    ensures past_scratch { PastScratch sorted.now.table.board scratch.old scratch.new }
{
    let mut chain = [0; Board::MAX_CELLS];
    let walk = Walk::over(sorted, &mut chain);
    let m = walk.table.board.inputs;
    for four in 0..m / 4 {
        mark_from::<4>(&walk, 4 * four, scratch, marks);
    }
    for i in 4 * (m / 4)..m {
        mark_from::<1>(&walk, i, scratch, marks);
    }
}

// Whether a row has an arc without a mark. All are looked at, so that the compiler takes several at a time.
fn row_unmarked(row: &[i32], marks: &[bool]) -> bool
    requires { length row.now ≤ length marks.now }
    ensures { result ≡ some (length row.now) (λ v. present (cell_at row.now v) && not (get_or marks.now v false)) }
{
    let mut some = false;
    for (v, cell) in row.iter().enumerate() {
        some |= cells::is_arc(*cell) & !marks[v];
    }
    some
}

fn some_unmarked(table: &Table, marks: &[bool]) -> bool
    requires { table.now.board.vertices * table.now.board.vertices ≤ length marks.now }
    ensures { result ≡ some_unmarked table.now.board.vertices (timing_graph table.now) marks.now }
{
    let n = table.board.vertices;
    for u in 0..n {
        if row_unmarked(table.row(u), cells::row(marks, n, u)) {
            return true;
        }
    }
    false
}

// A row without the arcs that have no mark.
fn thin_row(row: &mut [i32], marks: &[bool])
    requires { length row.old ≤ length marks.now }
    ensures { row.new ≡ remade (λ v. cond (get_or marks.now v false) (get_or row.old v (pos 0)) absent_cell) row.old }
{
    for (v, cell) in row.iter_mut().enumerate() {
        *cell = if marks[v] { *cell } else { Board::ABSENT };
    }
}

fn thin(board: Board, table: &mut [i32], marks: &[bool])
    requires lent { Lent board table.old }
    requires marks_room { board.vertices * board.vertices ≤ length marks.now }
    ensures { table.new ≡ changed board (marked_arcs board.vertices marks.now) table.old }
{
    let n = board.vertices;
    for u in 0..n {
        let at = n * u;
        let end = at + n;
        thin_row(&mut table[at..end], &marks[at..end]);
    }
}

// The step, in lent room for the marks.
fn prune_in(
    board: Board,
    table: &mut [i32],
    order: &Order,
    scratch: &mut [i64],
    marks: &mut [bool],
) -> Result<(), Refusal>
    requires passable { Passable board table.old order.now }
    requires scratch_room { ScratchRoom board scratch.old }
    requires unmarked { Unmarked board marks.old }
    ensures applies { Applies board prune table.old table.new result }
    ensures past_scratch { PastScratch board scratch.old scratch.new }
{
    let sorted = Sorted {
        table: Table {
            board,
            cells: table,
        },
        order: *order,
    };
    prune_marks(&sorted, scratch, marks);
    if !some_unmarked(&sorted.table, marks) {
        return Err(Refusal::NothingSaved);
    }
    thin(board, table, marks);
    Ok(())
}

// The step: what it answers, and the table after it. Nothing is written where it refuses.
pub fn prune_step(
    board: Board,
    table: &mut [i32],
    order: &Order,
    scratch: &mut [i64],
) -> Result<(), Refusal>
    requires passable { Passable board table.old order.now }
    requires scratch_room { ScratchRoom board scratch.old }
    ensures applies { Applies board prune table.old table.new result }
    ensures past_scratch { PastScratch board scratch.old scratch.new }
{
    let mut marks = [false; Board::MAX_CELLS];
    let size = board.cells();
    prune_in(board, table, order, scratch, &mut marks[..size])
}
