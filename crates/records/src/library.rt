// What stands at an offset of a library file. The whole file and the offset are given, as in `parse`, and for the same reason.
ghost use Rattle.timing.specs.Refusal.{verdict};
ghost use Rattle.std.specs.Prelude.{◌≡◌, ◌+◌, ◌≤◌, length};
ghost use Rattle.format.specs.declared.Mark.TheVariants.{Library};
ghost use Rattle.format.specs.Library.{ticks_fit};
ghost use Rattle.format.specs.LibraryFile.{entry_body, entry_at};

use crate::parse;
use codec::signed;
use format::{Entry, Mark};
use paths::cells;
use timing::Refusal;

// The cells of a library, a cell for each code.
pub const CODES: usize = 32;

// The most ticks of a code.
pub const MAX_TICKS: i32 = 1_000_000;

// Whether a code may have so many ticks.
fn ticks_fit(x: i64) -> bool
    ensures { result ≡ ticks_fit x }
{
    (0..=i64::from(MAX_TICKS)).contains(&x)
}

fn ticks_at(bytes: &[u8], at: usize) -> Result<Entry, Refusal>
    requires { at + 2 ≤ length bytes.now }
    ensures { verdict result ≡ entry_body bytes.now at Library }
{
    if bytes.len() - at < 7 {
        return Err(Refusal::FileEnds);
    }
    let code = parse::byte(bytes, at + 2);
    if code >= CODES {
        return Err(Refusal::WrongField);
    }
    let ticks = signed::decode(&bytes[at + 3..at + 7]);
    if !ticks_fit(ticks) {
        return Err(Refusal::WrongLibrary);
    }
    Ok(Entry::Ticks(code, cells::narrow(ticks)))
}

// The record at `at`.
#[tactic(auto, unfolding(format::specs::LibraryFile::entry_at))]
pub fn entry_at(bytes: &[u8], at: usize) -> Result<Entry, Refusal>
    requires { at ≤ length bytes.now }
    ensures { verdict result ≡ entry_at bytes.now at }
{
    if bytes.len() - at < 2 {
        return Err(Refusal::FileEnds);
    }
    match parse::mark_at(bytes, at) {
        Mark::Library => ticks_at(bytes, at),
        Mark::End => Ok(Entry::End(parse::count_at(bytes, at)?)),
        Mark::Board | Mark::Arc | Mark::Cell | Mark::Other => Err(Refusal::WrongMark),
    }
}
