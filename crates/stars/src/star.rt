// Star: the conditions, and the table after an accepted step.
ghost use Rattle.timing.specs.Refusal.{verdict};
ghost use Rattle.std.specs.Prelude.{◌≡◌, true, false, ◌&&◌, ℕ, ◌+◌, ◌<◌, ◌≤◌, T, ltb, ◌-ℤ◌, ◌+ℤ◌, length, get_or};
ghost use Rattle.laws.specs.Integers.{eq_z};
ghost use Rattle.laws.specs.Bounded.{each, member};
ghost use Rattle.graph.specs.Delay.{at, present};
ghost use Rattle.timing.specs.Limits.{max_vertices, delay_limit, fits};
ghost use Rattle.reduction.specs.Star.{non_empty, distinct, starred};
ghost use Rattle.paths.specs.Board.{Lent};
ghost use Rattle.paths.specs.Tables.{timing_graph, of_table};
ghost use Rattle.paths.specs.Cells.{cell_at};
ghost use Rattle.plans.specs.OnBoards.{InRange, changed, remade};
ghost use Rattle.stars.specs.StarCells.{least_gap, meeting, cleared_cell, source_cell, centre_cell, gap};
ghost use Rattle.stars.specs.StarReady.{below, VertexSet, Bundle};
ghost use Rattle.stars.specs.StarOn.{star_on, covered_on, centre_fits, StarReadyOn};

use paths::{Board, Table, cells};
use plans::rows;
use plans::rows::Row;
use timing::Refusal;

// Sources, targets and centre stay parameters, as document 01's call has them: `steps::Star` holds them together, and few functions here take all three.
// n is the bound of the numbers, and not the list's length.
fn all_below(xs: &[usize], n: usize) -> bool
    ensures { result ≡ below n xs.now }
{
    xs.iter().all(|x| *x < n)
}

// Refusal 7.
fn exist(sources: &[usize], targets: &[usize], k: usize, n: usize) -> bool
    ensures { result ≡ (below n sources.now && below n targets.now && ltb k n) }
{
    all_below(sources, n) && all_below(targets, n) && k < n
}

// Whether vertices below n, a bound and no length, are a set with a member; a list that is too long is not searched.
fn is_set(xs: &[usize], n: usize) -> bool
    requires { T (below n xs.now) }
    ensures { result ≡ (non_empty xs.now && distinct xs.now) }
{
    if xs.is_empty() || n < xs.len() {
        return false;
    }
    for (i, x) in xs.iter().enumerate() {
        if xs[i + 1..].contains(x) {
            return false;
        }
    }
    true
}

// Whether a row has an arc to each target.
#[tactic(auto, using(crate::proofs::Members::below_at))]
fn row_joined(row: &[i32], targets: &[usize]) -> bool
    requires { T (below (length row.now) targets.now) }
    ensures { result ≡ each targets.now (λ t. present (cell_at row.now t)) }
{
    for &t in targets {
        if !cells::is_arc(row[t]) {
            return false;
        }
    }
    true
}

// Whether each source has an arc to each target.
fn all_joined(table: &Table, sources: &[usize], targets: &[usize]) -> bool
    requires sources_below { T (below table.now.board.vertices sources.now) }
    requires targets_below { T (below table.now.board.vertices targets.now) }
    ensures { result ≡ each sources.now (λ s. each targets.now (λ t. present (timing_graph table.now s t))) }
{
    for &s in sources {
        if !row_joined(table.row(s), targets) {
            return false;
        }
    }
    true
}

fn difference(a: i32, b: i32) -> i64
    ensures { result ≡ a -ℤ b }
{
    i64::from(a) - i64::from(b)
}

// Whether an arc's delay is its sum through the centre.
fn is_covered(delay: i32, first: i32, e: i64) -> bool
    ensures { result ≡ eq_z delay (e +ℤ first) }
{
    difference(delay, first) == e
}

// The arcs from the centre: the first source's row, at the targets. That these are cells of another row, too, stays a clause: the rows are parts of a table, which is
// not known here.
#[derive(Clone, Copy)]
struct CentreArcs<'a> {
    first: &'a Row,
    targets: &'a [usize],
    ghost targets_set: { VertexSet max_vertices targets.now },
}

impl<'a> CentreArcs<'a> {
    // The least difference between a row and the first source's, over the targets, and how many of its arcs are covered: those that have it.
    #[tactic(auto, using(crate::proofs::Members::below_at))]
    fn tally(&self, row: &[i32]) -> (i64, usize)
        requires { T (below (length row.now) self.now.targets.now) }
        ensures least { at result.0 ≡ least_gap row.now self.now.first.now self.now.targets.now }
        ensures covered { result.1 ≡ meeting row.now self.now.first.now self.now.targets.now (gap row.now self.now.first.now self.now.targets.now) }
    {
        let t = self.targets[0];
        let mut least = difference(row[t], self.first[t]);
        let mut covered = 1;
        for &t in &self.targets[1..] {
            let e = difference(row[t], self.first[t]);
            if least < e {
                continue;
            }
            if e < least {
                least = e;
                covered = 0;
            }
            covered += 1;
        }
        (least, covered)
    }

    // The centre's row: the first source's delays at the targets.
    #[tactic(auto, using(crate::proofs::Members::below_at))]
    fn centre_row(&self, row: &mut [i32])
        requires { T (below (length row.old) self.now.targets.now) }
        ensures { row.new ≡ remade (centre_cell row.old self.now.first.now self.now.targets.now) row.old }
    {
        for &t in self.targets {
            row[t] = self.first[t];
        }
    }

    // Clears the covered arcs of a source's row.
    #[tactic(auto, using(crate::proofs::Members::below_at))]
    fn clear_covered(&self, row: &mut [i32], e: i64)
        requires { T (below (length row.old) self.now.targets.now) }
        ensures { row.new ≡ remade (cleared_cell row.old self.now.first.now self.now.targets.now e) row.old }
    {
        for &t in self.targets {
            if is_covered(row[t], self.first[t], e) {
                row[t] = Board::ABSENT;
            }
        }
    }

    // A source's row.
    fn source_row(&self, row: &mut [i32], k: usize)
        requires in_row { T (below (length row.old) self.now.targets.now) }
        requires k_in_bounds { k < length row.old }
        requires gap_fits { T (fits delay_limit (least_gap row.old self.now.first.now self.now.targets.now)) }
        ensures { row.new ≡ remade (source_cell row.old self.now.first.now self.now.targets.now k (gap row.old self.now.first.now self.now.targets.now)) row.old }
    {
        let (e, _) = self.tally(row);
        self.clear_covered(row, e);
        row[k] = cells::narrow(e);
    }
}

// How many arcs are covered, and whether the delays to the centre are in range.
pub fn measure(table: &Table, sources: &[usize], targets: &[usize]) -> (usize, bool)
    requires { Bundle table.now.board.vertices sources.now targets.now (timing_graph table.now) }
    ensures covered { result.0 ≡ of_table covered_on table.now sources.now targets.now }
    ensures fits { result.1 ≡ of_table centre_fits table.now sources.now targets.now }
{
    let first = rows::row_copy(table.row(sources[0]));
    let arcs = CentreArcs {
        first: &first,
        targets,
    };
    let mut covered = 0;
    let mut fits = true;
    for &s in sources {
        let (e, count) = arcs.tally(table.row(s));
        covered += count;
        if !cells::in_range(e) {
            fits = false;
        }
    }
    (covered, fits)
}

// The conditions, in the order of document 01: 7, 9, 8, 10, 13, 14.
pub fn star_verdict(
    table: &Table,
    sources: &[usize],
    targets: &[usize],
    k: usize,
) -> Result<(), Refusal>
    requires { of_table InRange table.now }
    ensures { verdict result ≡ of_table star_on table.now sources.now targets.now k }
{
    let n = table.board.vertices;
    if !exist(sources, targets, k, n) {
        return Err(Refusal::WrongVertex);
    }
    if !is_set(sources, n) {
        return Err(Refusal::WrongSet);
    }
    if !is_set(targets, n) {
        return Err(Refusal::WrongSet);
    }
    if !rows::is_free(table, k) {
        return Err(Refusal::NumberTaken);
    }
    if !all_joined(table, sources, targets) {
        return Err(Refusal::WrongArcs);
    }
    let (covered, fits) = measure(table, sources, targets);
    if covered <= sources.len() + targets.len() {
        return Err(Refusal::NothingSaved);
    }
    if !fits {
        return Err(Refusal::DelayOutOfRange);
    }
    Ok(())
}

// The marks of a list's members.
#[tactic(auto, using(crate::proofs::Members::below_at))]
fn marks(xs: &[usize]) -> [bool; Board::MAX_VERTICES]
    requires { T (below max_vertices xs.now) }
    ensures { (v : ℕ) → v < max_vertices → get_or result v false ≡ member v xs.now }
{
    let mut marked = [false; Board::MAX_VERTICES];
    for &x in xs {
        marked[x] = true;
    }
    marked
}

// The step: one pass over the rows.
pub fn star_apply(board: Board, table: &mut [i32], sources: &[usize], targets: &[usize], k: usize)
    requires lent { Lent board table.old }
    requires star_ready_on { StarReadyOn board table.old sources.now targets.now k }
    ensures { table.new ≡ changed board (starred sources.now targets.now k) table.old }
{
    let n = board.vertices;
    let first = rows::row_copy(cells::row(table, n, sources[0]));
    let arcs = CentreArcs {
        first: &first,
        targets,
    };
    let is_source = marks(sources);
    for u in 0..n {
        let at = n * u;
        let row = &mut table[at..at + n];
        if u == k {
            arcs.centre_row(row);
        } else if is_source[u] {
            arcs.source_row(row, k);
        }
    }
}
