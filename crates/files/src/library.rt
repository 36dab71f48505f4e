// Cell libraries: 32 cells, a code's ticks each, absent where it lacks the code.
ghost use Rattle.timing.specs.Refusal.{verdict};
ghost use Rattle.std.specs.Prelude.{◌≡◌, length};
ghost use Rattle.timing.specs.Limits.{absent_cell};
ghost use Rattle.timing.specs.Table.{write_cell};
ghost use Rattle.format.specs.Library.{library_fits, InForce, ticks_in, ticks_of, value_of, built_in_cells};

use paths::{Board, cells};
use records::{library, parse};
use timing::Refusal;

// A library in force. A read is lent cells, and makes one of them once `open` has found that they pass.
#[derive(Clone, Copy)]
pub struct Library<'a> {
    pub cells: &'a [i32],
    pub ghost in_force: { InForce cells.now },
}

// Whether the cells are a library in force.
pub fn fits(library: &[i32]) -> bool
    ensures { result ≡ library_fits library.now }
{
    if library.len() != library::CODES {
        return false;
    }
    cells::row_within(library, 0, library::MAX_TICKS)
}

// A code's ticks, in any cells, as `scan` takes them: a `Library` would ask more of the caller.
pub fn ticks_in(library: &[i32], code: u8) -> Result<i32, Refusal>
    ensures { verdict result ≡ ticks_in library.now code }
{
    let lacking = Err(Refusal::WrongField);
    let at = usize::from(code);
    if at >= library.len() {
        return lacking;
    }
    let ticks = library[at];
    if cells::is_arc(ticks) {
        return Ok(ticks);
    }
    lacking
}

// A code's cell of the built-in library.
fn built_in_cell(code: usize) -> i32
    ensures { result ≡ write_cell absent_cell (value_of (ticks_of code)) }
{
    match u8::try_from(code) {
        Ok(code) => parse::cell_ticks(code).unwrap_or(Board::ABSENT),
        Err(_) => Board::ABSENT,
    }
}

// Fills the cells from the built-in ticks: 32 of them are the built-in library.
pub fn built_in(library: &mut [i32])
    ensures { library.new ≡ built_in_cells (length library.old) }
{
    for (code, cell) in library.iter_mut().enumerate() {
        *cell = built_in_cell(code);
    }
}
