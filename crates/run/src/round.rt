// A round of the automatic run.
// Board, table and order stay parameters, as `plans::rewrite` says, and so do the steps: a struct of the table and the steps was tried here, and of a table behind
// its `&mut` the prover knows nothing once it has been lent for reading.
ghost use Rattle.std.specs.Prelude.{◌≡◌, true, T, IfSome};
ghost use Rattle.paths.specs.Board.{ScratchRoom, PastScratch};
ghost use Rattle.paths.specs.Checked.{Checked, Passable};
ghost use Rattle.paths.specs.Tables.{of_table};
ghost use Rattle.run.specs.declared.round.Known.TheVariants.{Sorted, Starless};
ghost use Rattle.run.specs.Known.{says_lean, KnownOf};
ghost use Rattle.run.specs.Running.{progress, Running, Held, Leads, tries_on, prune_try};

use crate::inputs::Inputs;
use crate::outputs::Outputs;
use crate::vertex_tries::{MergeBack, Shrink};
use crate::{shares, vertex_tries};
use finder::best;
use paths::order::Order;
use paths::{Board, Table, order};
use pruning::prune;

// What is known of the table when a round begins. No Option: that no order is known says here that the table is lean.
#[derive(Clone, Copy)]
pub enum Known {
    // One of its orders.
    Sorted(Order),
    // Prune would take no arc: the round before has left it so.
    Lean,
    // Nor would the finder find a star.
    Starless,
}

// The order that is known of the table, where no step has been accepted since.
fn known_order(known: Known, before: usize, after: usize) -> Option<Order>
    ensures { IfSome result (λ order. (known ≡ Sorted order) × (after ≡ before)) }
{
    match known {
        Known::Sorted(order) if after == before => Some(order),
        _ => None,
    }
}

// Prune, in an order that is known, or in one that is made for it.
fn try_prune(
    board: Board,
    table: &mut [i32],
    order: Option<Order>,
    scratch: &mut [i64],
    steps: usize,
) -> usize
    requires running { Running board (progress table.old steps) }
    requires passable { IfSome order (Passable board table.old) }
    requires scratch_room { ScratchRoom board scratch.old }
    ensures leads { Leads board (prune_try board) table.old steps table.new result }
    ensures past_scratch { PastScratch board scratch.old scratch.new }
{
    let order = order_of(
        &Table {
            board,
            cells: table,
        },
        order,
    );
    steps + usize::from(prune::prune_step(board, table, &order, scratch).is_ok())
}

// An order of the table: the one that is known, or a new one.
fn order_of(table: &Table, known: Option<Order>) -> Order
    requires checked { of_table Checked table.now }
    requires passable { IfSome known (of_table Passable table.now) }
    ensures { of_table Passable table.now result }
{
    match known {
        Some(order) => order,
        None => order::topological_order(table).unwrap(),
    }
}

// Whether the table is as the round before left it, and so lean: no step has been accepted since.
fn is_lean(known: Known, before: usize, after: usize) -> bool
    ensures { result ≡ true → T (says_lean known) × (after ≡ before) }
{
    matches!(known, Known::Lean | Known::Starless) && after == before
}

// Whether it is as the finder saw it, which found no star.
fn is_starless(known: Known, before: usize, after: usize) -> bool
    ensures { result ≡ true → (known ≡ Starless) × (after ≡ before) }
{
    matches!(known, Known::Starless) && after == before
}

// The tries of a round, each on the table as it then is, and what is known of the table that they leave. `matrix` is the table's delay matrix. Prune, shrink, merge back
// and star leave a lean table; on one prune would be refused.
pub fn round(
    board: Board,
    table: &mut [i32],
    scratch: &mut [i64],
    matrix: &[i64],
    known: Known,
    steps: usize,
) -> (usize, Known)
    requires running { Running board (progress table.old steps) }
    requires held { Held board matrix.now table.old }
    requires known_of { KnownOf board table.old known }
    requires scratch_room { ScratchRoom board scratch.old }
    ensures leads { Leads board (tries_on board) table.old steps table.new result.0 }
    ensures known_next { KnownOf board table.new result.1 }
    ensures past_scratch { PastScratch board scratch.old scratch.new }
{
    let mut inputs = Inputs {
        free: None,
        drivers: None,
    };
    let one = shares::shares(board, table, matrix, &mut inputs, steps);
    let mut outputs = Outputs {
        order: known_order(known, steps, one),
        rows: None,
    };
    let two = shares::shares(board, table, matrix, &mut outputs, one);
    let three = if is_lean(known, steps, two) {
        two
    } else {
        try_prune(board, table, outputs.order, scratch, two)
    };
    let four = vertex_tries::vertex_tries::<Shrink>(board, table, three);
    let five = vertex_tries::vertex_tries::<MergeBack>(board, table, four);
    if is_starless(known, steps, five) {
        return (five, Known::Starless);
    }
    if best::make_star(board, table) {
        (five + 1, Known::Lean)
    } else {
        (five, Known::Starless)
    }
}
