// Chains of arcs: a pass over a row goes from each arc to the next, whatever lies between. Arcs that are beaten by two others are passed too.
ghost use Rattle.std.specs.Prelude.{◌≡◌, ◌*◌, ◌<◌, ◌≤◌, T, length, get_or};
ghost use Rattle.graph.specs.Delay.{present, ◌⊕◌};
ghost use Rattle.timing.specs.Limits.{max_vertices, delay_limit, absent_cell, fits};
ghost use Rattle.timing.specs.Table.{read_cell};
ghost use Rattle.paths.specs.Cells.{cell_at};
ghost use Rattle.paths.specs.Order.{TopologicalOrder};
ghost use Rattle.paths.specs.Chain.{Chain, Chained, Chains, Walkable, below, unbeaten, Near};
ghost use Rattle.paths.specs.Tables.{timing_graph, IsSound};

use crate::board::Board;
use crate::cells;
use crate::order::Order;
use crate::sorted::Sorted;
use crate::table::Table;

// A sorted table with a chain for each row: what a pass over the arcs walks.
#[derive(Clone, Copy)]
pub struct Walk<'a> {
    pub table: Table<'a>,
    pub order: &'a Order,
    pub chain: &'a [u8],
    pub ghost sound: { IsSound table },
    pub ghost rises: { TopologicalOrder table.board.vertices (timing_graph table) order.now },
    pub ghost chains: { Chains table.board.vertices table.cells.now chain.now },
}

// A row of its table with the chain of the row: after each cell the next arc that the pass looks at, and after the last of them the row's length. It stands for none:
// with `Option<u8>` the chains of a table would take 16,200 bytes, and the matrix may take 12,288 of stack.
#[derive(Clone, Copy)]
pub struct LinkedRow<'a> {
    pub cells: &'a [i32],
    pub links: &'a [u8],
    pub ghost walkable: { Walkable cells.now links.now },
}

impl<'a> Walk<'a> {
    ghost use Rattle.paths.specs.Cells.{row_at};

    // Over a sorted table, with its chains made in lent bytes.
    pub fn over(sorted: &'a Sorted<'a>, chain: &'a mut [u8; Board::MAX_CELLS]) -> Walk<'a>
        ensures { result.table ≡ sorted.now.table }
    {
        chains(sorted, chain);
        Walk {
            table: sorted.table,
            order: &sorted.order,
            chain,
        }
    }

    // Row u with its links.
    pub fn row(&self, u: usize) -> LinkedRow<'a>
        requires { u < self.now.table.board.vertices }
        ensures cells { result.cells.now ≡ row_at self.now.table.board.vertices u self.now.table.cells.now }
        ensures links { result.links.now ≡ row_at self.now.table.board.vertices u self.now.chain.now }
    {
        LinkedRow {
            cells: self.table.row(u),
            links: cells::row(self.chain, self.table.board.vertices, u),
        }
    }
}

// Whether an arc is beaten by one of delay `d` and then `next`. Absent is so low that a sum with it beats none.
fn beaten(cell: i32, next: i32, d: i32) -> bool
    requires cell_present { T (present (read_cell absent_cell cell)) }
    requires cell_fits { T (fits delay_limit (read_cell absent_cell cell)) }
    requires next_fits { T (fits delay_limit (read_cell absent_cell next)) }
    requires d_fits { T (fits delay_limit (read_cell absent_cell d)) }
    ensures { result ≡ below (read_cell absent_cell cell) (read_cell absent_cell d ⊕ read_cell absent_cell next) }
{
    i64::from(cell) < i64::from(d) + i64::from(next)
}

// The chain of a row, from its last cell to its first, without the arcs that are beaten by one of delay d and then one of `next`. Where there is none of delay d, no
// arc is beaten, and a row is asked for its arcs alone.
fn chain_row(row: &[i32], next: &[i32], d: i32, chain: &mut [u8])
    requires chain_len_bound { length chain.old ≤ max_vertices }
    requires row_near { Near (length chain.old) row.now }
    requires next_near { Near (length chain.old) next.now }
    requires d_fits { T (fits delay_limit (read_cell absent_cell d)) }
    ensures { Chain (length chain.old) (unbeaten (cell_at row.now) (cell_at next.now) (read_cell absent_cell d)) (λ v. get_or chain.new v 0) }
{
    if cells::is_arc(d) {
        link_row::<true>(row, next, d, chain);
    } else {
        link_row::<false>(row, next, d, chain);
    }
}

// The same, where it is known whether there is one of delay d: where there is none, a cell is asked one thing, without a branch that would be guessed wrong where
// arcs stand at random.
fn link_row<const VIA: bool>(row: &[i32], next: &[i32], d: i32, chain: &mut [u8])
    requires via { VIA ≡ present (read_cell absent_cell d) }
    requires chain_len_bound { length chain.old ≤ max_vertices }
    requires row_near { Near (length chain.old) row.now }
    requires next_near { Near (length chain.old) next.now }
    requires d_fits { T (fits delay_limit (read_cell absent_cell d)) }
    ensures { Chain (length chain.old) (unbeaten (cell_at row.now) (cell_at next.now) (read_cell absent_cell d)) (λ v. get_or chain.new v 0) }
{
    let mut after = chain.len();
    for v in (0..chain.len()).rev() {
        // At most 90: `as`, for the reason in `cells`.
        chain[v] = after as u8;
        if cells::is_arc(row[v]) && !(VIA && beaten(row[v], next[v], d)) {
            after = v;
        }
    }
}

// The chain of vertex u, without the arcs that are beaten by way of w.
fn chain_from(sorted: &Sorted, u: usize, w: usize, chain: &mut [u8])
    requires u_lt_vertices { u < sorted.now.table.board.vertices }
    requires w_lt_vertices { w < sorted.now.table.board.vertices }
    requires chain_len { length chain.old ≡ sorted.now.table.board.vertices }
    ensures { Chained sorted.now.table.board.vertices (timing_graph sorted.now.table) u (λ v. get_or chain.new v 0) }
{
    let row = sorted.table.row(u);
    let next = sorted.table.row(w);
    chain_row(row, next, row[w], chain);
}

// The chains of all rows, in lent bytes: returned, they would stand twice on the stack. From each vertex w is the next in the order; after the last
// it is 0, an input, to which there is no arc: with an Option the last row would need a `chain_row` of its own.
pub fn chains(sorted: &Sorted, chain: &mut [u8])
    requires { sorted.now.table.board.vertices * sorted.now.table.board.vertices ≤ length chain.old }
    ensures { Chains sorted.now.table.board.vertices sorted.now.table.cells.now chain.new }
{
    let n = sorted.table.board.vertices;
    let mut w = 0;
    for p in (0..n).rev() {
        let u = usize::from(sorted.order[p]);
        let at = n * u;
        chain_from(sorted, u, w, &mut chain[at..at + n]);
        w = u;
    }
}
