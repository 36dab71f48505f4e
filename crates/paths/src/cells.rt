// Cells: one delay each, a row of them, and the rows of a list.
ghost use Rattle.std.specs.Prelude.{◌≡◌, ◌*◌, ◌<◌, ◌≤◌, T, pos, length, get_or};
ghost use Rattle.std.specs.Int.Signed.{le_z};
ghost use Rattle.laws.specs.Bounded.{every};
ghost use Rattle.laws.specs.Lists.{tabulate};
ghost use Rattle.graph.specs.Delay.{at, present};
ghost use Rattle.timing.specs.Limits.{max_vertices, delay_limit, absent_cell, fits};
ghost use Rattle.timing.specs.Table.{read_cell};
ghost use Rattle.paths.specs.Cells.{cell_at, row_at, between};

use crate::board::Board;

// What is asked of a cell stays a clause: cells stand in lent slices, of i32 in a table and of i64 where arrivals are, and a type of their own would be made anew at
// each read.

// The limits of a delay, as a cell has them; `try_from` is no const function.
pub const MIN_TICKS: i32 = Board::MIN_DELAY as i32;

pub const MAX_TICKS: i32 = Board::MAX_DELAY as i32;

// A cell as a 64-bit number.
pub fn wide(x: i32) -> i64
    ensures { result ≡ x }
{
    i64::from(x)
}

// A delay that fits a cell. `as` is proved to lose nothing: a `try_from` with its `unwrap` would be no plainer.
pub fn narrow(x: i64) -> i32
    requires { T (fits delay_limit (at x)) }
    ensures { result ≡ x }
{
    x as i32
}

// Whether a cell has an arc.
pub fn is_arc(x: i32) -> bool
    ensures { result ≡ present (read_cell absent_cell x) }
{
    x != Board::ABSENT
}

// Whether x is a delay that a cell may hold.
pub fn in_range(x: i64) -> bool
    ensures { result ≡ fits delay_limit (at x) }
{
    Board::MIN_DELAY <= x && x <= Board::MAX_DELAY
}

// Whether a cell is absent, or from low to high: compared as it is, not widened, so that four go at a time.
fn within(x: i32, low: i32, high: i32) -> bool
    ensures { result ≡ between low high (read_cell absent_cell x) }
{
    !is_arc(x) || low <= x && x <= high
}

// Whether each cell of a row is. All are looked at, so that the compiler takes four at a time.
pub fn row_within(row: &[i32], low: i32, high: i32) -> bool
    ensures { result ≡ every (length row.now) (λ v. between low high (cell_at row.now v)) }
{
    let mut all = true;
    for x in row {
        all = all & within(*x, low, high);
    }
    all
}

// Whether no cell of a row is above high: absent is the least number of all.
pub fn row_upto(row: &[i32], high: i32) -> bool
    ensures { result ≡ every (length row.now) (λ v. le_z (get_or row.now v (pos 0)) high) }
{
    let mut all = true;
    for x in row {
        all = all & (*x <= high);
    }
    all
}

// Whether each cell of a row is absent or in range.
pub fn row_fits(row: &[i32]) -> bool
    ensures { result ≡ every (length row.now) (λ v. fits delay_limit (cell_at row.now v)) }
{
    row_within(row, MIN_TICKS, MAX_TICKS)
}

// Row u of a list in which each vertex has a row of n cells; the list may go on. Here and in the crates above n is bounded by a clause where no board is given: a
// `Board` would ask more of the caller.
pub fn row<T>(cells: &[T], n: usize, u: usize) -> &[T]
    requires few { n ≤ max_vertices }
    requires room { n * n ≤ length cells.now }
    requires u_lt_n { u < n }
    ensures { result.now ≡ row_at n u cells.now }
{
    let at = n * u;
    &cells[at..at + n]
}

// No arcs.
pub fn clear(row: &mut [i32])
    ensures { row.new ≡ tabulate (length row.old) (λ _. absent_cell) }
{
    row.fill(Board::ABSENT);
}

// The cells of another list. The library's `copy_from_slice` would ask a C host for memmove.
pub fn copy(to: &mut [i64], from: &[i64])
    requires { length to.old ≡ length from.now }
    ensures { to.new ≡ from.now }
{
    for (i, x) in to.iter_mut().enumerate() {
        *x = from[i];
    }
}
