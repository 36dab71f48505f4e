// Loads, a byte for each vertex, and a cell's delay under its load.
ghost use Rattle.std.specs.Prelude.{◌≡◌};
ghost use Rattle.timing.specs.Limits.{absent_cell};
ghost use Rattle.timing.specs.Table.{write_cell};
ghost use Rattle.format.specs.Library.{value_of};
ghost use Rattle.format.specs.Records.{under_load, cell_delay};
ghost use Rattle.files.specs.Loads.{Loadable};

use crate::library;
use crate::library::Library;
use paths::Board;

// A fifth more for each record of the load, rounded up.
fn under_load(ticks: i32, load: u8) -> i32
    requires { Loadable ticks }
    ensures { result ≡ under_load ticks load }
{
    let fifths = u64::from(ticks.unsigned_abs()) * (5 + u64::from(load));
    // It fits, by `Loadable`: `as`, for the reason in `paths::cells`.
    ((fifths + 4) / 5) as i32
}

// A cell's delay, as the table has it; absent for a code that the library lacks.
pub fn cell_delay(library: &Library, code: u8, load: u8) -> i32
    ensures { result ≡ write_cell absent_cell (value_of (cell_delay library.now.cells.now code load)) }
{
    match library::ticks_in(library.cells, code) {
        Ok(ticks) => under_load(ticks, load),
        Err(_) => Board::ABSENT,
    }
}
