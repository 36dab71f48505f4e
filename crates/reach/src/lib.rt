// The rows of a table as sets of vertices, and whether a path leads from one vertex to another.
#![tactic(auto)]

ghost use Rattle.std.specs.Prelude.{◌≡◌, false, ◌&&◌, ℕ, ◌<◌, ◌≤◌, T, ltb, length};
ghost use Rattle.graph.specs.Delay.{present};
ghost use Rattle.graph.specs.Graph.{Graph, longest, reversed};
ghost use Rattle.timing.specs.Limits.{max_vertices};
ghost use Rattle.paths.specs.Cells.{cell_at};
ghost use Rattle.paths.specs.Tables.{timing_graph};
ghost use Rattle.sets.specs.Sets.{holds, set_at};
ghost use Rattle.reach.specs.RowSets.{Targets, RowSets, Rowed, OneSource, Added};
ghost use Rattle.reach.specs.Spread.{barred, Spread};

use paths::{Board, Table, cells};
use sets::Set;

// The targets of a row.
fn row_set(row: &[i32]) -> Set
    requires { length row.now ≤ max_vertices }
    ensures { (u : ℕ) → holds result u ≡ (ltb u (length row.now) && present (cell_at row.now u)) }
{
    let mut set = Set::empty();
    for (v, cell) in row.iter().enumerate() {
        if cells::is_arc(*cell) {
            set = set.plus(v);
        }
    }
    set
}

// The targets of vertex u.
fn targets(table: &Table, u: usize) -> Set
    requires { u < table.now.board.vertices }
    ensures { Targets (timing_graph table.now) u result }
{
    row_set(table.row(u))
}

// The targets of every vertex.
pub fn row_sets(table: &Table, sets: &mut [Set])
    requires { table.now.board.vertices ≤ length sets.old }
    ensures { RowSets table.now.board.vertices (timing_graph table.now) sets.new }
{
    for u in 0..table.board.vertices {
        sets[u] = targets(table, u);
    }
}

// The targets of a row, which is u's, and u among the sources of each.
fn add_row(row: &[i32], u: usize, sources: &mut [Set]) -> Set
    requires few { length row.now ≤ max_vertices }
    requires u_bound { u < max_vertices }
    requires room { length row.now ≤ length sources.old }
    ensures targets { (v : ℕ) → holds result v ≡ (ltb v (length row.now) && present (cell_at row.now v)) }
    ensures added { Added u row.now (length row.now) sources.old sources.new }
{
    let mut set = Set::empty();
    for (v, cell) in row.iter().enumerate() {
        if cells::is_arc(*cell) {
            set = set.plus(v);
            sources[v] = sources[v].plus(u);
        }
    }
    set
}

// The targets of every vertex, and its sources, where there were none.
pub fn arc_sets(table: &Table, targets: &mut [Set], sources: &mut [Set])
    requires targets_room { table.now.board.vertices ≤ length targets.old }
    requires sources_room { table.now.board.vertices ≤ length sources.old }
    requires none { (v u : ℕ) → holds (set_at sources.old v) u ≡ false }
    ensures targets { RowSets table.now.board.vertices (timing_graph table.now) targets.new }
    ensures sources { RowSets table.now.board.vertices (reversed (timing_graph table.now)) sources.new }
{
    for u in 0..table.board.vertices {
        targets[u] = add_row(table.row(u), u, sources);
    }
}

// Makes a the one vertex with an arc to b.
pub fn one_source(sets: &mut [Set], a: usize, b: usize)
    requires few { length sets.old ≤ max_vertices }
    requires a_in_bounds { a < length sets.old }
    requires b_in_bounds { b < length sets.old }
    ensures { OneSource (length sets.old) a b sets.old sets.new }
{
    for set in sets.iter_mut() {
        *set = set.minus(b);
    }
    sets[a] = sets[a].plus(b);
}

// Whether a path leads from v to u: from v on, each vertex met adds its targets, until u is met or none is left.
pub fn leads(sets: &[Set], v: usize, u: usize) -> bool
    requires few { length sets.now ≤ max_vertices }
    requires v_in_bounds { v < length sets.now }
    requires u_in_bounds { u < length sets.now }
    requires rowed { (g : Graph) × Rowed (length sets.now) g sets.now }
    ensures { (g : Graph) → Rowed (length sets.now) g sets.now → result ≡ present (longest g (length sets.now) v u) }
{
    let mut met = sets[v];
    let mut done = Set::empty();
    while !met.has(u) {
        let Some(x) = met.without(done).first() else {
            return false;
        };
        done = done.plus(x);
        met = met.or(sets[x]);
    }
    true
}

// What is met from the members of `from`, by arcs that do not leave `without`: each vertex met adds its targets, until none is left.
pub fn spread(table: &Table, from: Set, without: usize) -> Set
    requires from_below { (u : ℕ) → T (holds from u) → u < table.now.board.vertices }
    requires without_below { without < table.now.board.vertices }
    ensures { Spread (barred without (timing_graph table.now)) from result }
{
    let mut met = from;
    let mut done = Set::empty().plus(without);
    while let Some(x) = met.without(done).first() {
        done = done.plus(x);
        met = met.or(targets(table, x));
    }
    met
}
