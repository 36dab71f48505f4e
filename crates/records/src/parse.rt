// What stands at an offset of a file. The whole file and the offset are given: a slice of the rest would be no plainer, for what is found is said by offset
// (`record_at` of `format`) and `files` tells a refusal by it, so that the offset would stand beside the slice. The board's number of vertices stays beside the file: the
// first record is read before it is known, and marks, counts and ends need none.
ghost use Rattle.timing.specs.Refusal.{verdict};
ghost use Rattle.std.specs.Prelude.{◌≡◌, ◌&&◌, ◌+◌, ◌*◌, ◌<◌, ◌≤◌, ltb, length};
ghost use Rattle.timing.specs.Limits.{max_vertices};
ghost use Rattle.format.specs.declared.Mark.TheVariants.{Arc, Cell};
ghost use Rattle.format.specs.Library.{ticks_of};
ghost use Rattle.format.specs.Records.{byte_at, mark_at, body, record_at};
ghost use Rattle.records.specs.Records.{ends_of, count_of};

use codec::{signed, unsigned};
use format::{Mark, Record};
use paths::cells;
use timing::Refusal;

pub fn byte(bytes: &[u8], at: usize) -> usize
    requires { at < length bytes.now }
    ensures { (result ≡ byte_at bytes.now at) × (result < 256) }
{
    usize::from(bytes[at])
}

#[tactic(auto, unfolding(format::specs::Records::mark_at))]
pub fn mark_at(bytes: &[u8], at: usize) -> Mark
    requires { at + 2 ≤ length bytes.now }
    ensures { result ≡ mark_at bytes.now at }
{
    match (bytes[at], bytes[at + 1]) {
        (b'B', b'D') => Mark::Board,
        (b'A', b'R') => Mark::Arc,
        (b'C', b'E') => Mark::Cell,
        (b'E', b'N') => Mark::End,
        (b'C', b'L') => Mark::Library,
        _ => Mark::Other,
    }
}

// The built-in ticks.
#[tactic(auto, unfolding(format::specs::Library::cell_ticks, format::specs::Library::ticks_of))]
pub fn cell_ticks(code: u8) -> Result<i32, Refusal>
    ensures { verdict result ≡ ticks_of code }
{
    match code {
        // INV
        0 => Ok(1),
        // NAND2
        1 => Ok(2),
        // AND
        2 => Ok(2),
        // OR
        3 => Ok(2),
        // MUX
        4 => Ok(2),
        5..=255 => Err(Refusal::WrongField),
    }
}

// Whether both ends of an arc are vertices.
fn vertices(n: usize, u: usize, v: usize) -> bool
    ensures { result ≡ (ltb u n && ltb v n) }
{
    u < n && v < n
}

// Both ends of a record of `size` bytes, its mark included; 15 where they are not all there, 17 where an end is no vertex.
#[tactic(auto, unfolding(crate::specs::Records::ends_of))]
fn ends_at(bytes: &[u8], n: usize, at: usize, size: usize) -> Result<(usize, usize), Refusal>
    requires at_in_bounds { at ≤ length bytes.now }
    requires le_size { 4 ≤ size }
    ensures { verdict result ≡ ends_of n bytes.now at size }
{
    if bytes.len() - at < size {
        return Err(Refusal::FileEnds);
    }
    let u = byte(bytes, at + 2);
    let v = byte(bytes, at + 3);
    if !vertices(n, u, v) {
        return Err(Refusal::WrongField);
    }
    Ok((u, v))
}

fn arc_at(bytes: &[u8], n: usize, at: usize) -> Result<Record, Refusal>
    requires { at + 2 ≤ length bytes.now }
    ensures { verdict result ≡ body n bytes.now at Arc }
{
    let (u, v) = ends_at(bytes, n, at, 8)?;
    let d = signed::decode(&bytes[at + 4..at + 8]);
    if !cells::in_range(d) {
        return Err(Refusal::WrongField);
    }
    Ok(Record::Arc(u, v, cells::narrow(d)))
}

fn cell_at(bytes: &[u8], n: usize, at: usize) -> Result<Record, Refusal>
    requires { at + 2 ≤ length bytes.now }
    ensures { verdict result ≡ body n bytes.now at Cell }
{
    let (u, v) = ends_at(bytes, n, at, 5)?;
    Ok(Record::Cell(u, v, bytes[at + 4]))
}

// The count in a last record; 15 where it is not all there.
pub fn count_at(bytes: &[u8], at: usize) -> Result<usize, Refusal>
    requires { at + 2 ≤ length bytes.now }
    ensures { verdict result ≡ count_of bytes.now at }
{
    if bytes.len() - at < 4 {
        return Err(Refusal::FileEnds);
    }
    Ok(unsigned::number(&bytes[at + 2..at + 4]))
}

// The record at `at`, in a file of n vertices.
#[tactic(auto, unfolding(format::specs::Records::record_at))]
pub fn record_at(bytes: &[u8], n: usize, at: usize) -> Result<Record, Refusal>
    requires { at ≤ length bytes.now }
    ensures { verdict result ≡ record_at n bytes.now at }
{
    if bytes.len() - at < 2 {
        return Err(Refusal::FileEnds);
    }
    match mark_at(bytes, at) {
        Mark::Arc => arc_at(bytes, n, at),
        Mark::Cell => cell_at(bytes, n, at),
        Mark::End => Ok(Record::End(count_at(bytes, at)?)),
        Mark::Board | Mark::Library | Mark::Other => Err(Refusal::WrongMark),
    }
}

// The table's cell of a record's arc.
pub fn cell_of(n: usize, u: usize, v: usize) -> usize
    requires n_le_max_vertices { n ≤ max_vertices }
    requires u_lt_n { u < n }
    requires v_lt_n { v < n }
    ensures { (result ≡ n * u + v) × (result < n * n) }
{
    n * u + v
}
