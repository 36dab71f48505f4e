// Share inputs, as a side of the delay matrix.
ghost use Rattle.plans.specs.Sharing.{DriversOf};
ghost use Rattle.run.specs.Sides;
ghost use Rattle.plans.specs.OnBoards.{Free};

use crate::side::Side;
use paths::{Board, Table, cells};
use plans::{rows, share_inputs};
use sets::Set;

// The smallest free number, for a share's new vertex, and the vertices that alone drive some inner vertex with arcs out, once a try has asked for them.
#[derive(Drop)]
pub struct Inputs {
    pub free: Option<usize>,
    pub drivers: Option<Set>,
}

impl Side for Inputs {
    ghost side = { Sides.Inputs };

    ghost given = { λ it board t. Unit {0} };

    ghost knows = { λ it board t. Free board t it.free × DriversOf board t it.drivers };

    fn begin(&mut self, table: &Table) {
        let free = rows::fresh_number(table);
        self.free = free;
        self.drivers = None;
    }

    fn first(_inputs: usize) -> usize {
        0
    }

    fn end(board: Board) -> usize {
        board.inputs
    }

    fn across(_inputs: usize, outputs: usize) -> usize {
        outputs
    }

    fn place(board: Board, v: usize, j: usize) -> usize {
        board.outputs * v + j
    }

    fn is_rich(table: &Table, v: usize) -> bool {
        table.fan_out(v) >= 2
    }

    fn is_open(&self) -> bool {
        self.free.is_some()
    }

    fn share(&mut self, board: Board, table: &mut [i32], a: usize, b: usize, e: i64) -> bool {
        let Some(k) = self.free else {
            return false;
        };
        let read = Table {
            board,
            cells: table,
        };
        let Ok(d) = share_inputs::inputs_saved(&read, &mut self.drivers, b, e) else {
            return false;
        };
        let e = cells::narrow(d);
        share_inputs::share(board, table, a, b, k, e);
        self.begin(&Table {
            board,
            cells: table,
        });
        true
    }
}
