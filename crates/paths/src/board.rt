// The board's type, with document 01's limits and marks.
ghost use Rattle.std.specs.Prelude.{◌≡◌, ◌*◌};
ghost use Rattle.timing.specs.Limits.{scratch_cells};
ghost use Rattle.timing.specs.Refusal.{verdict};
ghost use Rattle.paths.specs.Sizes.{Sized};

use timing::Refusal;

// Sizes that have passed the constructor.
#[derive(Clone, Copy)]
pub struct Board {
    pub inputs: usize,
    pub outputs: usize,
    pub vertices: usize,
    pub ghost sized: { Sized inputs outputs vertices },
}

impl Board {
    ghost use Rattle.timing.specs.Refusal.{on_value};
    ghost use Rattle.paths.specs.Board.{sizes_of, board_of};

    pub const MAX_VERTICES: usize = 90;

    // The cells of a table of that many vertices.
    pub const MAX_CELLS: usize = Board::MAX_VERTICES * Board::MAX_VERTICES;

    // The cells of the largest delay matrix: half of them inputs, half outputs.
    pub const MAX_PAIRS: usize = Board::MAX_CELLS / 4;

    // The scratch cells that a call may use for each vertex.
    pub const SCRATCH_PER_VERTEX: usize = 4;

    // The scratch cells that a call may use on the largest board.
    pub const MAX_SCRATCH: usize = Board::SCRATCH_PER_VERTEX * Board::MAX_VERTICES;

    pub const MIN_DELAY: i64 = -1_000_000_000;

    pub const MAX_DELAY: i64 = 1_000_000_000;

    pub const MIN_ARRIVAL: i64 = -1_000_000_000_000;

    pub const MAX_ARRIVAL: i64 = 1_000_000_000_000;

    // No arc, in a table.
    pub const ABSENT: i32 = -2_147_483_648;

    // No path or no arrival, in a matrix or a list of arrivals.
    pub const ABSENT_WIDE: i64 = -9_223_372_036_854_775_808;

    // Check 1.
    #[tactic(auto, unfolding(crate::specs::Board::board_of, timing::specs::Checks::sizes_fit))]
    pub fn new(inputs: usize, outputs: usize, vertices: usize) -> Result<Board, Refusal>
        ensures { on_value sizes_of (verdict result) ≡ board_of inputs outputs vertices }
    {
        if inputs < 1 {
            return Err(Refusal::Sizes);
        }
        if outputs < 1 {
            return Err(Refusal::Sizes);
        }
        if Board::MAX_VERTICES < vertices {
            return Err(Refusal::Sizes);
        }
        if vertices < inputs {
            return Err(Refusal::Sizes);
        }
        if vertices - inputs < outputs {
            return Err(Refusal::Sizes);
        }
        Ok(Board {
            inputs,
            outputs,
            vertices,
        })
    }

    // The table's cells.
    pub fn cells(self) -> usize
        ensures { result ≡ self.vertices * self.vertices }
    {
        self.vertices * self.vertices
    }

    // The scratch cells that a call may use.
    pub fn scratch_cells(self) -> usize
        ensures { result ≡ scratch_cells self.vertices }
    {
        Board::SCRATCH_PER_VERTEX * self.vertices
    }
}
