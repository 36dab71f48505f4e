// Writing and reading board files, and reading and putting libraries.
ghost use Rattle.std.specs.Prelude.{◌≤◌};

use crate::calls::Lent;
use crate::page::Page;
use crate::{answers, input, lines, memory};
use files::{library, read, read_library, write};
use records::library::CODES;

// The library in force, at the front of its memory.
#[derive(Drop)]
pub struct Library {
    cells: [i32; memory::LIBRARY],
    held: usize,
    ghost within: { held ≤ 64 },
}

impl Library {
    pub fn built_in() -> Library {
        let mut cells = [0; memory::LIBRARY];
        library::built_in(&mut cells[0..CODES]);
        Library { cells, held: CODES }
    }
}

pub fn write(lent: &Lent, page: &mut Page) -> Option<()> {
    let mut bytes = [memory::DESTINATION_BYTE; memory::BYTES];
    let bytes = input::part(&mut bytes)?;
    let answer = write::write(
        lent.inputs,
        lent.outputs,
        lent.vertices,
        lent.table,
        lent.scratch,
        bytes,
    );
    answers::counted(page, "bytes", answer);
    lines::table(page, lent.table);
    lines::destination(page, bytes);
    lines::scratch(page, lent.scratch);
    Some(())
}

pub fn read(lent: &mut Lent, library: &Library, page: &mut Page) -> Option<()> {
    let mut file = [0; memory::FILE];
    let file = input::file(&mut file)?;
    let held = &library.cells[..library.held];
    // Both fields are lent for writing, though the scratch is only read: the borrow checker has no rule yet for one lent each way.
    let answer = read::read(file, lent.table, &mut *lent.scratch, held);
    answers::read(page, answer);
    lines::left(page, lent);
    Some(())
}

pub fn read_library(lent: &Lent, library: &mut Library, page: &mut Page) -> Option<()> {
    let mut file = [0; memory::FILE];
    let file = input::file(&mut file)?;
    // A copy: the borrow checker has no rule yet that lends a part of a field of a struct with an invariant.
    let mut cells = library.cells;
    let answer = read_library::read_library(file, &mut cells[..library.held]);
    library.cells = cells;
    answers::scanned(page, answer);
    lines::library(page, &cells[..library.held]);
    lines::left(page, lent);
    Some(())
}

// Any cells, in the library's place.
pub fn put_library(library: &mut Library) -> Option<()> {
    let held = input::list(&mut library.cells)?.len();
    library.held = held;
    Some(())
}
