// Delays in cells: their sum, and the larger of two.
ghost use Rattle.std.specs.Prelude.{◌≡◌, T, ◌+ℤ◌};
ghost use Rattle.graph.specs.Delay.{◌⋓◌, ◌⊕◌};
ghost use Rattle.timing.specs.Limits.{delay_limit, absent_cell, fits};
ghost use Rattle.timing.specs.Table.{read_cell, write_cell};

use paths::{Board, cells};

// Two cells' numbers, added.
fn wide_sum(a: i32, b: i32) -> i64
    ensures { result ≡ a +ℤ b }
{
    i64::from(a) + i64::from(b)
}

// Whether the sum of two delays is absent or in range.
pub fn sum_fits(a: i32, b: i32) -> bool
    ensures { result ≡ fits delay_limit (read_cell absent_cell a ⊕ read_cell absent_cell b) }
{
    !cells::is_arc(a) || !cells::is_arc(b) || cells::in_range(wide_sum(a, b))
}

// The sum of two delays; absent where a part is.
pub fn sum(a: i32, b: i32) -> i32
    requires { T (fits delay_limit (read_cell absent_cell a ⊕ read_cell absent_cell b)) }
    ensures { read_cell absent_cell result ≡ read_cell absent_cell a ⊕ read_cell absent_cell b }
{
    if cells::is_arc(a) && cells::is_arc(b) {
        a + b
    } else {
        Board::ABSENT
    }
}

// The larger of two delays: absent is the least number of all.
pub fn larger(a: i32, b: i32) -> i32
    ensures { result ≡ write_cell absent_cell (read_cell absent_cell a ⋓ read_cell absent_cell b) }
{
    a.max(b)
}

// The larger of a delay and the sum of two others.
pub fn join(old: i32, a: i32, b: i32) -> i32
    requires { T (fits delay_limit (read_cell absent_cell a ⊕ read_cell absent_cell b)) }
    ensures { result ≡ write_cell absent_cell (read_cell absent_cell old ⋓ (read_cell absent_cell a ⊕ read_cell absent_cell b)) }
{
    larger(old, sum(a, b))
}
