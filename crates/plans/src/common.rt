// The common difference of two rows or columns of path delays, and what is asked of it.
ghost use Rattle.timing.specs.declared.Refusal.TheVariants.{NothingSaved, DelayOutOfRange};
ghost use Rattle.timing.specs.Refusal.{verdict, require, accepted};
ghost use Rattle.std.specs.Prelude.{◌≡◌, T, length};
ghost use Rattle.graph.specs.Delay.{at};
ghost use Rattle.timing.specs.Limits.{arrival_limit, delay_limit, absent_wide, fits};
ghost use Rattle.timing.specs.Table.{read_cell};
ghost use Rattle.timing.specs.Delays.{arrival_in};
ghost use Rattle.reduction.specs.Common.{common_difference};
ghost use Rattle.plans.specs.Comparing.{compared, Comparable};

use paths::{Board, cells};
use timing::Refusal;

// One more place, after places that all differ by `seen`, or of which none is joined.
#[inline(always)]
pub fn seen_next(seen: Option<i64>, x: i64, y: i64) -> Result<Option<i64>, Refusal>
    requires x_fits { T (fits arrival_limit (read_cell absent_wide x)) }
    requires y_fits { T (fits arrival_limit (read_cell absent_wide y)) }
    ensures { result ≡ compared seen (read_cell absent_wide x) (read_cell absent_wide y) }
{
    if x == Board::ABSENT_WIDE || y == Board::ABSENT_WIDE {
        return if x == y {
            Ok(seen)
        } else {
            Err(Refusal::NoCommonDifference)
        };
    }
    let d = y - x;
    match seen {
        Some(e) if d != e => Err(Refusal::NoCommonDifference),
        _ => Ok(Some(d)),
    }
}

// ys less xs where both are joined, if that is one number. The labelled loop that breaks with the answer is document 01's form.
pub fn common_difference(xs: &[i64], ys: &[i64]) -> Result<i64, Refusal>
    requires { Comparable xs.now ys.now }
    ensures { verdict result ≡ common_difference (length xs.now) (arrival_in xs.now) (arrival_in ys.now) }
{
    let mut seen = None;
    let mut j = 0;
    'compare: loop {
        if j >= xs.len() {
            break 'compare seen.ok_or(Refusal::NoCommonDifference);
        }
        match seen_next(seen, xs[j], ys[j]) {
            Ok(next) => seen = next,
            Err(refusal) => break 'compare Err(refusal),
        }
        j += 1;
    }
}

// What is left to ask where e is the common difference: whether the share saves enough arcs, and whether e is a delay.
pub fn saved(enough: bool, e: i64) -> Result<i64, Refusal>
    ensures { verdict result ≡ require enough NothingSaved (require (fits delay_limit (at e)) DelayOutOfRange (accepted e)) }
{
    if !enough {
        return Err(Refusal::NothingSaved);
    }
    if !cells::in_range(e) {
        return Err(Refusal::DelayOutOfRange);
    }
    Ok(e)
}
