// How a refusal is answered.
ghost use Rattle.std.specs.Prelude.{◌≡◌, pos, neg_ℤ};
ghost use Rattle.timing.specs.Refusal.{number};

use timing::{Refusal, numbers};

pub fn refused(refusal: Refusal) -> i64
    ensures { result ≡ neg_ℤ (pos (number refusal)) }
{
    // It is below 24, and `as` is proved to lose nothing: a `try_from` with its `unwrap` would be no plainer.
    -(numbers::number(refusal) as i64)
}
