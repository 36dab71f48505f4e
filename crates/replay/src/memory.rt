// What the program lends to the calls, and the marks by which it sees what they wrote.
ghost use Rattle.std.specs.Prelude.{◌≤◌, length};

pub const CELLS: usize = 8_200;

pub const BYTES: usize = 33_000;

pub const VERTICES: usize = 200;

pub const ARRIVALS: usize = 100;

// Room for a library, and for one that is too long.
pub const LIBRARY: usize = 64;

pub const FILE: usize = 65_536;

// What a scratch cell holds before a call.
pub const SCRATCH: i64 = 7;

// What a destination holds before a call.
pub const DESTINATION: i64 = 9;

pub const DESTINATION_BYTE: u8 = 9;

// One more than the place of the last scratch cell that was written; 0 if none was.
pub fn touched(scratch: &[i64]) -> usize
    ensures { result ≤ length scratch.now }
{
    scratch
        .iter()
        .rposition(|x| *x != SCRATCH)
        .map_or(0, |last| last + 1)
}
