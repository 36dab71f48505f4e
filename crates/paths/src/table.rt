// A board's table: the cells of its arcs, a row for each vertex. Checks 4 and 5, fan counts, arcs.
ghost use Rattle.std.specs.Prelude.{◌≡◌, ◌*◌, ◌≤◌, length};

use crate::board::Board;
use crate::cells;

// A lent table with a cell for each pair of vertices. That a vertex is one of the board's stays a clause of each question, and so of all that take one: a loop,
// an order or a link says it, and a type of vertices would be made anew in each turn; those that a call names are asked about once, at its head.
#[derive(Clone, Copy)]
pub struct Table<'a> {
    pub board: Board,
    pub cells: &'a [i32],
    pub ghost room: { board.vertices * board.vertices ≤ length cells.now },
}

impl<'a> Table<'a> {
    ghost use Rattle.std.specs.Prelude.{◌+◌, ◌<◌, eqb, pos, get_or};
    ghost use Rattle.laws.specs.Bounded.{sum};
    ghost use Rattle.graph.specs.Count.{bit, fan_in, fan_out, arcs};
    ghost use Rattle.timing.specs.Checks.{cells_fit, no_arc_into_input};
    ghost use Rattle.paths.specs.Cells.{cell_at, row_at, InTable, FirstInto};
    ghost use Rattle.paths.specs.Tables.{timing_graph};

    // The cells of the arcs out of u.
    pub fn row(&self, u: usize) -> &'a [i32]
        requires { u < self.now.board.vertices }
        ensures { result.now ≡ row_at self.now.board.vertices u self.now.cells.now }
    {
        cells::row(self.cells, self.board.vertices, u)
    }

    // The cell of the arc from u to v.
    pub fn cell(&self, u: usize, v: usize) -> i32
        requires u_lt_vertices { u < self.now.board.vertices }
        requires v_lt_vertices { v < self.now.board.vertices }
        ensures { result ≡ get_or self.now.cells.now (self.now.board.vertices * u + v) (pos 0) }
    {
        self.cells[self.board.vertices * u + v]
    }

    // Check 4: each cell is absent or in range.
    pub fn cells_fit(&self) -> bool
        ensures { result ≡ cells_fit self.now.board.vertices (timing_graph self.now) }
    {
        for u in 0..self.board.vertices {
            if !cells::row_fits(self.row(u)) {
                return false;
            }
        }
        true
    }

    // How many of the cells at `from`, `from` + `stride`, .. are present: the one counting routine.
    // Whatever the table holds, at most 90 cells are looked at (`InTable`), so that the byte never wraps.
    fn count(&self, from: usize, stride: usize, times: usize) -> usize
        requires { InTable self.now.cells.now from stride times }
        ensures { result ≡ sum times (λ i. bit (cell_at self.now.cells.now (from + stride * i))) }
    {
        let table = self.cells;
        let mut total = 0u8;
        for i in 0..times {
            if cells::is_arc(table[from + stride * i]) {
                total += 1;
            }
        }
        usize::from(total)
    }

    // The arcs out of u: a row.
    pub fn fan_out(&self, u: usize) -> usize
        requires { u < self.now.board.vertices }
        ensures { result ≡ fan_out self.now.board.vertices (timing_graph self.now) u }
    {
        let n = self.board.vertices;
        self.count(n * u, 1, n)
    }

    // The arcs into v: a column.
    pub fn fan_in(&self, v: usize) -> usize
        requires { v < self.now.board.vertices }
        ensures { result ≡ fan_in self.now.board.vertices (timing_graph self.now) v }
    {
        let n = self.board.vertices;
        self.count(v, n, n)
    }

    // The first vertex from `from` on with an arc to v.
    pub fn next_into(&self, v: usize, from: usize) -> Option<usize>
        requires v_lt_vertices { v < self.now.board.vertices }
        requires from_le_vertices { from ≤ self.now.board.vertices }
        ensures { FirstInto self.now.board.vertices (timing_graph self.now) v from result }
    {
        let n = self.board.vertices;
        let table = self.cells;
        for u in from..n {
            if cells::is_arc(table[n * u + v]) {
                return Some(u);
            }
        }
        None
    }

    // Whether no arc leads into v. The first settles it.
    pub fn none_into(&self, v: usize) -> bool
        requires { v < self.now.board.vertices }
        ensures { result ≡ eqb (fan_in self.now.board.vertices (timing_graph self.now) v) 0 }
    {
        self.next_into(v, 0).is_none()
    }

    // Whether one arc leads into v. The second settles it.
    pub fn one_into(&self, v: usize) -> bool
        requires { v < self.now.board.vertices }
        ensures { result ≡ eqb (fan_in self.now.board.vertices (timing_graph self.now) v) 1 }
    {
        match self.next_into(v, 0) {
            Some(u) => self.next_into(v, u + 1).is_none(),
            None => false,
        }
    }

    // All arcs: the present cells.
    pub fn arcs(&self) -> usize
        ensures { result ≡ arcs self.now.board.vertices (timing_graph self.now) }
    {
        let mut total = 0;
        for u in 0..self.board.vertices {
            total += self.fan_out(u);
        }
        total
    }

    // Check 5: no arc leads into an input.
    pub fn no_arc_into_input(&self) -> bool
        ensures { result ≡ no_arc_into_input self.now.board.inputs self.now.board.vertices (timing_graph self.now) }
    {
        let n = self.board.vertices;
        for u in 0..n {
            if self.count(n * u, 1, self.board.inputs) != 0 {
                return false;
            }
        }
        true
    }
}
