// Find a star as a call: any arguments, the checks first.
ghost use Rattle.std.specs.Prelude.{◌≡◌, length};
ghost use Rattle.reduction.specs.FindStar.{find_star_call};
ghost use Rattle.finder.specs.Finding.{found_meaning};

use crate::best;
use crate::best::Found;
use paths::checks;
use timing::Refusal;

// The vertex whose star saves most, and what it saves. Of the scratch only the length is asked.
pub fn find_star(
    inputs: usize,
    outputs: usize,
    vertices: usize,
    table: &[i32],
    scratch: &[i64],
) -> Result<Option<Found>, Refusal>
    ensures { found_meaning result ≡ find_star_call inputs outputs vertices (length scratch.now) table.now }
{
    let sorted = checks::checked(inputs, outputs, vertices, table, scratch.len())?;
    Ok(best::find_star(&sorted.table))
}
