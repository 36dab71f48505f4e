// Reading a library file into 32 lent cells: every record is checked, then the ticks are placed.
ghost use Rattle.std.specs.Prelude.{◌≡◌, length};
ghost use Rattle.format.specs.Library.{library_cells};
ghost use Rattle.format.specs.LibraryFile.{entry_at, LegalEntry, entry_shape, library_records, file_library, library_call, library_read};
ghost use Rattle.files.specs.Scan.{scan_meaning, InFile, Turns, shape_says, found_says};

use crate::answer::Fault;
use crate::scan;
use crate::scan::Cursor;
use format::Entry;
use paths::cells;
use records::library;
use timing::Refusal;

fn item_turn(bytes: &[u8], cursor: Cursor, item: Entry) -> Result<Option<Cursor>, Fault>
    requires in_file { InFile (length bytes.now) cursor }
    requires legal_entry { LegalEntry bytes.now cursor.at item }
    ensures { Turns (length bytes.now) cursor (shape_says bytes.now cursor (entry_shape item)) result }
{
    match item {
        Entry::Ticks(code, _) => scan::entry_turn(cursor, code, cursor.at + 7),
        Entry::End(codes) => scan::end_turn(bytes, cursor, codes),
    }
}

// Not one function with `scan::turn`: what finds a record, and what it says, would be closures, each with its contract.
fn turn(bytes: &[u8], cursor: Cursor) -> Result<Option<Cursor>, Fault>
    requires { InFile (length bytes.now) cursor }
    ensures { Turns (length bytes.now) cursor (found_says bytes.now cursor entry_shape (entry_at bytes.now cursor.at)) result }
{
    let at = cursor.at;
    match library::entry_at(bytes, at) {
        Ok(item) => item_turn(bytes, cursor, item),
        Err(refusal) => Err(Fault { refusal, at }),
    }
}

// Pass 1: every record is checked.
fn scan_entries(bytes: &[u8]) -> Result<(), Fault>
    ensures { scan_meaning result ≡ library_records bytes.now }
{
    let mut cursor = Cursor {
        at: 0,
        low: 0,
        count: 0,
    };
    while let Some(after) = turn(bytes, cursor)? {
        cursor = after;
    }
    Ok(())
}

// Pass 2: the ticks of the records, in cells that are absent otherwise.
fn place_entries(bytes: &[u8], library: &mut [i32])
    requires { length library.old ≡ library_cells }
    ensures { library.new ≡ file_library bytes.now }
{
    cells::clear(library);
    for at in (0..bytes.len()).step_by(7) {
        match library::entry_at(bytes, at) {
            Ok(Entry::Ticks(code, ticks)) => library[code] = ticks,
            Ok(Entry::End(_)) => return,
            Err(_) => return,
        }
    }
}

// The library in the file takes the place of the one in the cells, once all of it has been checked; refused, it leaves them.
pub fn read_library(bytes: &[u8], library: &mut [i32]) -> Result<(), Fault>
    ensures result_value { scan_meaning result ≡ library_call bytes.now library.old }
    ensures library_after { library.new ≡ library_read bytes.now library.old }
{
    if library.len() != library::CODES {
        return Err(Fault::from(Refusal::WrongLibrary));
    }
    scan_entries(bytes)?;
    place_entries(bytes, library);
    Ok(())
}
