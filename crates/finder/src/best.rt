// The finder, over a table that has passed its checks.
ghost use Rattle.std.specs.Option.{MatchOption};
ghost use Rattle.std.specs.Prelude.{◌≡◌, false, ℕ, ◌≤◌, ◌<◌};
ghost use Rattle.reduction.specs.FindStar.{saved_by};
ghost use Rattle.graph.specs.Graph.{reversed};
ghost use Rattle.paths.specs.Tables.{timing_graph, of_table};
ghost use Rattle.paths.specs.Checked.{Checked};
ghost use Rattle.plans.specs.OnBoards.{InRange, fresh_on};
ghost use Rattle.reach.specs.RowSets.{RowSets};
ghost use Rattle.sets.specs.Sets.{holds, set_at};
ghost use Rattle.finder.specs.Finding.{found, find_star_on, offered_on, OthersOf, BlockOf, Made};

use crate::block;
use crate::block::Block;
use paths::{Board, Table};
use plans::rows;
use sets::Set;
use stars::star;

// A vertex, and the arcs that its star saves.
#[derive(Clone, Copy)]
pub struct Found {
    pub vertex: usize,
    pub saving: usize,
}

// What the best star so far saves.
fn saved_by(best: Option<Found>) -> usize
    ensures { result ≡ saved_by (found best) }
{
    match best {
        Some(found) => found.saving,
        None => 0,
    }
}

// A table in range with the targets and the sources of each vertex, and the smallest free number for a star's centre.
#[derive(Clone, Copy)]
struct Finder<'a> {
    table: Table<'a>,
    targets: &'a [Set],
    sources: &'a [Set],
    centre: usize,
    ghost in_range: { of_table InRange table },
    ghost to_targets: { RowSets table.board.vertices (timing_graph table) targets.now },
    ghost from_sources: { RowSets table.board.vertices (reversed (timing_graph table)) sources.now },
    ghost free: { (centre ≡ of_table fresh_on table) × (centre < table.board.vertices) },
}

impl<'a> Finder<'a> {
    // Over a table, with its sets made in lent ones that are empty; None where no number is free.
    fn over(
        table: Table<'a>,
        targets: &'a mut [Set; Board::MAX_VERTICES],
        sources: &'a mut [Set; Board::MAX_VERTICES],
    ) -> Option<Finder<'a>>
        requires in_range { of_table InRange table }
        requires none { (v u : ℕ) → holds (set_at sources.old v) u ≡ false }
        ensures { MatchOption result (table.entry.board.vertices ≤ of_table fresh_on table.entry) (λ x. x.table ≡ table.entry) }
    {
        let centre = rows::fresh_number(&table)?;
        reach::arc_sets(&table, targets, sources);
        Some(Finder {
            table,
            targets,
            sources,
            centre,
        })
    }

    // Every other vertex with arcs to all targets of a: the sources of one target, and of the next, until none is left.
    fn others(&self, a: usize) -> Set
        requires { a < self.now.table.board.vertices }
        ensures { OthersOf self.now.table.board.vertices (timing_graph self.now.table) a result }
    {
        let targets = self.targets[a];
        let Some(first) = targets.first() else {
            return Set::range(0, self.table.board.vertices).minus(a);
        };
        let mut others = self.sources[first].minus(a);
        let mut done = Set::empty().plus(first);
        while let Some(t) = targets.without(done).first() {
            if others.is_empty() {
                return others;
            }
            others = others.and(self.sources[t]);
            done = done.plus(t);
        }
        others
    }

    // The lists of a's star.
    fn fill(&self, block: &mut Block, a: usize, others: Set)
        requires a_lt_vertices { a < self.now.table.board.vertices }
        requires others_of { OthersOf self.now.table.board.vertices (timing_graph self.now.table) a others }
        ensures { BlockOf self.now.table.board.vertices (timing_graph self.now.table) a block.new }
    {
        block.sources[0] = a;
        block.source_count = block::list_members(others, &mut block.sources, 1);
        block.target_count = block::list_members(self.targets[a], &mut block.targets, 0);
    }

    // What a's star saves, where it is accepted and saves more than `least`. No more arcs are covered than there are from sources to targets, so that a vertex with too few
    // of them is passed before any is looked at.
    fn saving(&self, block: &mut Block, a: usize, least: usize) -> Option<usize>
        requires { a < self.now.table.board.vertices }
        ensures { result ≡ of_table offered_on self.now.table a least }
    {
        if self.targets[a].is_empty() {
            return None;
        }
        let others = self.others(a);
        if others.is_empty() {
            return None;
        }
        self.fill(block, a, others);
        let ends = block.source_count + block.target_count;
        if (block.source_count * block.target_count).saturating_sub(ends) <= least {
            return None;
        }
        let sources = &block.sources[..block.source_count];
        let targets = &block.targets[..block.target_count];
        let (covered, fits) = star::measure(&self.table, sources, targets);
        let saving = covered.saturating_sub(ends);
        if saving <= least || !fits {
            return None;
        }
        Some(saving)
    }

    // The first of the vertices whose stars save most.
    fn best(&self, block: &mut Block) -> Option<Found>
        ensures { found result ≡ of_table find_star_on self.now.table }
    {
        let mut best = None;
        for a in 0..self.table.board.vertices {
            if let Some(saving) = self.saving(block, a, saved_by(best)) {
                best = Some(Found { vertex: a, saving });
            }
        }
        best
    }
}

// The star that saves most.
pub fn find_star(table: &Table) -> Option<Found>
    requires { of_table InRange table.now }
    ensures { found result ≡ of_table find_star_on table.now }
{
    let mut targets = [Set::empty(); Board::MAX_VERTICES];
    let mut sources = [Set::empty(); Board::MAX_VERTICES];
    Finder::over(*table, &mut targets, &mut sources)?.best(&mut Block::empty())
}

// The star that saves most, made where there is one. In a frame of its own its sets and lists do not lie below what a run's other parts keep.
#[inline(never)]
pub fn make_star(board: Board, table: &mut [i32]) -> bool
    requires { Checked board table.old }
    ensures { Made board table.old table.new result }
{
    let mut targets = [Set::empty(); Board::MAX_VERTICES];
    let mut sources = [Set::empty(); Board::MAX_VERTICES];
    let read = Table {
        board,
        cells: table,
    };
    let Some(finder) = Finder::over(read, &mut targets, &mut sources) else {
        return false;
    };
    let mut block = Block::empty();
    let Some(found) = finder.best(&mut block) else {
        return false;
    };
    let a = found.vertex;
    let k = finder.centre;
    finder.fill(&mut block, a, finder.others(a));
    let sources = &block.sources[..block.source_count];
    let targets = &block.targets[..block.target_count];
    star::star_apply(board, table, sources, targets, k);
    true
}
