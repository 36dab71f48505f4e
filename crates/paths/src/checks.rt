// Checks 1 to 6, which every call makes.
ghost use Rattle.paths.specs.Checked.{MemoryChecking, ArcsChecking, Checking};

use crate::board::Board;
use crate::order;
use crate::order::Order;
use crate::sorted::Sorted;
use crate::table::Table;
use timing::Refusal;

// Checks 1, 2 and 3. `scratch` is the length of the lent scratch.
pub fn memory_checked<'a>(
    inputs: usize,
    outputs: usize,
    vertices: usize,
    cells: &'a [i32],
    scratch: usize,
) -> Result<Table<'a>, Refusal>
    ensures { MemoryChecking inputs outputs vertices scratch cells.now result }
{
    let board = Board::new(inputs, outputs, vertices)?;
    if cells.len() < board.cells() {
        return Err(Refusal::TableShort);
    }
    if scratch < board.scratch_cells() {
        return Err(Refusal::ScratchShort);
    }
    Ok(Table { board, cells })
}

// Checks 5 and 6: a topological order.
pub fn arcs_checked(table: &Table) -> Result<Order, Refusal>
    ensures { ArcsChecking table.now result }
{
    if !table.no_arc_into_input() {
        return Err(Refusal::ArcIntoInput);
    }
    order::topological_order(table).ok_or(Refusal::Cycle)
}

// The table, sorted, or the first refusal.
pub fn checked<'a>(
    inputs: usize,
    outputs: usize,
    vertices: usize,
    cells: &'a [i32],
    scratch: usize,
) -> Result<Sorted<'a>, Refusal>
    ensures { Checking inputs outputs vertices scratch cells.now result }
{
    let table = memory_checked(inputs, outputs, vertices, cells, scratch)?;
    if !table.cells_fit() {
        return Err(Refusal::OddCell);
    }
    let order = arcs_checked(&table)?;
    Ok(Sorted { table, order })
}
