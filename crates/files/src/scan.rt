// Pass 1: every record is checked and counted by its source; the table stays. A record is told by its offset in the file, as in `records::parse`, and n is the
// board's number of vertices and no slice's length, as in `place`.
ghost use Rattle.timing.specs.Refusal.{verdict};
ghost use Rattle.std.specs.Prelude.{◌≡◌, ◌+◌, ◌*◌, ◌<◌, ◌≤◌, length};
ghost use Rattle.timing.specs.Limits.{max_vertices};
ghost use Rattle.format.specs.Records.{LegalRecord, known};
ghost use Rattle.format.specs.Reading.{last, board_shape, known_at, no_loads};
ghost use Rattle.files.specs.Loads.{loads_of};
ghost use Rattle.files.specs.Scan.{InFile, Turns, Scans, entry_says, shape_says, record_says, found_says};

use crate::answer::Fault;
use crate::library;
use format::Record;
use records::parse;
use timing::Refusal;

// Where the next record stands, the first cell that its arc may have, and the arcs so far. That it is in a file stays a clause: with the file's bytes in it, each turn
// would hand them on.
#[derive(Clone, Copy)]
pub struct Cursor {
    pub at: usize,
    pub low: usize,
    pub count: usize,
}

// What a record with a place says: go on with what follows it, at `after`.
pub fn entry_turn(cursor: Cursor, place: usize, after: usize) -> Result<Option<Cursor>, Fault>
    requires place_bound { place < max_vertices * max_vertices }
    requires at_lt_after { cursor.at < after }
    requires count_le_at { cursor.count ≤ cursor.at }
    ensures { Turns after cursor (entry_says cursor place after) result }
{
    if place < cursor.low {
        return Err(Fault {
            refusal: Refusal::NotRising,
            at: cursor.at,
        });
    }
    Ok(Some(Cursor {
        at: after,
        low: place + 1,
        count: cursor.count + 1,
    }))
}

// What the last record says: the file is done. `count` is the arcs or the codes that the record says, and no slice's length.
pub fn end_turn(bytes: &[u8], cursor: Cursor, count: usize) -> Result<Option<Cursor>, Fault>
    requires { cursor.at + 4 ≤ length bytes.now }
    ensures { Turns (length bytes.now) cursor (shape_says bytes.now cursor (last count)) result }
{
    let end = cursor.at + 4;
    if count != cursor.count {
        return Err(Fault {
            refusal: Refusal::WrongCount,
            at: cursor.at,
        });
    }
    if end != bytes.len() {
        return Err(Fault {
            refusal: Refusal::FileGoesOn,
            at: end,
        });
    }
    Ok(None)
}

fn record_turn(
    bytes: &[u8],
    n: usize,
    cursor: Cursor,
    item: Record,
) -> Result<Option<Cursor>, Fault>
    requires n_le_max_vertices { n ≤ max_vertices }
    requires in_file { InFile (length bytes.now) cursor }
    requires legal_record { LegalRecord n bytes.now cursor.at item }
    ensures { Turns (length bytes.now) cursor (record_says bytes.now cursor n item) result }
{
    match item {
        Record::Arc(u, v, _) => entry_turn(cursor, parse::cell_of(n, u, v), cursor.at + 8),
        Record::Cell(u, v, _) => entry_turn(cursor, parse::cell_of(n, u, v), cursor.at + 5),
        Record::End(arcs) => end_turn(bytes, cursor, arcs),
    }
}

// The record, unless it is a cell whose code the library lacks.
fn known(library: &[i32], item: Record) -> Result<Record, Refusal>
    ensures { verdict result ≡ known library.now item }
{
    if let Record::Cell(_, _, code) = item {
        library::ticks_in(library, code)?;
    }
    Ok(item)
}

fn known_at(bytes: &[u8], n: usize, library: &[i32], at: usize) -> Result<Record, Refusal>
    requires { at ≤ length bytes.now }
    ensures { verdict result ≡ known_at library.now n bytes.now at }
{
    let item = parse::record_at(bytes, n, at)?;
    known(library, item)
}

fn turn(bytes: &[u8], n: usize, library: &[i32], cursor: Cursor) -> Result<Option<Cursor>, Fault>
    requires n_le_max_vertices { n ≤ max_vertices }
    requires in_file { InFile (length bytes.now) cursor }
    ensures { Turns (length bytes.now) cursor (found_says bytes.now cursor (board_shape n) (known_at library.now n bytes.now cursor.at)) result }
{
    let at = cursor.at;
    match known_at(bytes, n, library, at) {
        Ok(item) => record_turn(bytes, n, cursor, item),
        Err(refusal) => Err(Fault { refusal, at }),
    }
}

// The records of a file of n vertices, from the one after the header on; where all are good, `loads` then has the load of each vertex.
pub fn scan(bytes: &[u8], n: usize, library: &[i32], loads: &mut [u8]) -> Result<(), Fault>
    requires in_bounds { 5 ≤ length bytes.now }
    requires n_le_max_vertices { n ≤ max_vertices }
    requires n_in_bounds { n ≤ length loads.old }
    requires loads_value { loads_of loads.old ≡ no_loads }
    ensures { Scans library.now n bytes.now loads.new result }
{
    let mut cursor = Cursor {
        at: 5,
        low: 0,
        count: 0,
    };
    while let Some(after) = turn(bytes, n, library, cursor)? {
        let u = parse::byte(bytes, cursor.at + 2);
        loads[u] += 1;
        cursor = after;
    }
    Ok(())
}
