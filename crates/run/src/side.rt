// The two sides of the delay matrix: share inputs compares its rows, share outputs its columns.
ghost use Rattle.std.specs.Prelude.{◌≡◌, false, ◌<◌, List, ℤ};
ghost use Rattle.paths.specs.declared.board.Board.{Board};
ghost use Rattle.paths.specs.Checked.{Checked};
ghost use Rattle.run.specs.Sides;
ghost use Rattle.run.specs.Sides.{OnSide, first_of, across_of, place_of, end_of, rich_on};
ghost use Rattle.run.specs.Pairs.{Pair, Compared};
ghost use Rattle.run.specs.Running.{Full, TriesShare};

use paths::{Board, Table};

// A side, with what its tries need to know of the table as it is.
pub trait Side {
    ghost side: { Sides.Side };

    // What is asked of it before it has looked at the table, and what it knows then.
    ghost given: { Self → Board → List ℤ → Type 0 };

    ghost knows: { Self → Board → List ℤ → Type 0 };

    // Looks at the table, before the side's first try.
    fn begin(&mut self, table: &Table)
        requires { given self.old table.now.board table.now.cells.now }
        ensures { knows self.new table.now.board table.now.cells.now };

    // The side's first vertex.
    fn first(inputs: usize) -> usize
        ensures { result ≡ first_of side inputs };

    // The number after its last.
    fn end(board: Board) -> usize
        ensures { result ≡ end_of board side };

    // How many entries of the matrix each vertex of the side has.
    fn across(inputs: usize, outputs: usize) -> usize
        ensures { result ≡ across_of side inputs outputs };

    // Where the matrix has the j-th entry of vertex v.
    fn place(board: Board, v: usize, j: usize) -> usize
        requires on_side { OnSide board side v }
        requires j_bound { j < across_of side board.inputs board.outputs }
        ensures { result ≡ place_of side board.inputs board.outputs v j };

    // Whether v has arcs enough to be the second of a share.
    fn is_rich(table: &Table, v: usize) -> bool
        requires { v < table.now.board.vertices }
        ensures { result ≡ rich_on table.now.board side table.now.cells.now v };

    // Whether a share can be accepted at all.
    fn is_open(&self) -> bool
        ensures { (board : Board) (t : List ℤ) → knows self.now board t → result ≡ false → Full side board t };

    // A share of a, b whose common difference is e.
    fn share(&mut self, board: Board, table: &mut [i32], a: usize, b: usize, e: i64) -> bool
        requires checked { Checked board table.old }
        requires known { knows self.old board table.old }
        requires pair { Pair side board a b }
        requires compared { Compared side board table.old a b e }
        ensures tries_share { TriesShare side board a b table.old table.new result }
        ensures still_known { knows self.new board table.new };
}
