// Reading a board file into a lent table.
ghost use Rattle.std.specs.Prelude.{◌≡◌, ◌≤◌, length};
ghost use Rattle.format.specs.Reading.{header, opened, file_loads, no_arcs, file_checked, arcs_read, read_call, table_read};
ghost use Rattle.paths.specs.Board.{Lent, graph_in, sizes_of};
ghost use Rattle.files.specs.Loads.{loads_of};
ghost use Rattle.files.specs.Read.{read_meaning, header_meaning, Opens, Loads};

use crate::answer::Fault;
use crate::library::Library;
use crate::{library, place, scan};
use format::Mark;
use paths::{Board, Table, checks};
use records::parse;
use timing::Refusal;

// Inputs, outputs and vertices, which the first record says.
#[tactic(auto, unfolding(format::specs::Reading::header, format::specs::Reading::is_board))]
fn first_record(bytes: &[u8]) -> Result<(usize, usize, usize), Refusal>
    ensures { header_meaning result ≡ header bytes.now }
{
    if bytes.len() < 2 {
        return Err(Refusal::FileEnds);
    }
    let Mark::Board = parse::mark_at(bytes, 0) else {
        return Err(Refusal::WrongMark);
    };
    if bytes.len() < 5 {
        return Err(Refusal::FileEnds);
    }
    let inputs = parse::byte(bytes, 2);
    let outputs = parse::byte(bytes, 3);
    let vertices = parse::byte(bytes, 4);
    Ok((inputs, outputs, vertices))
}

// The first record's board, where the library passes and the lent memory has room. `scratch` is the length of the lent scratch. That the file then has the 5 bytes
// of its first record stays a clause of what comes after: a struct of its bytes would be taken apart at each record, for `records::parse` reads any bytes.
fn open(bytes: &[u8], library: &[i32], table: &[i32], scratch: usize) -> Result<Board, Refusal>
    ensures { Opens library.now (opened library.now bytes.now table.now scratch) table.now result }
{
    if !library::fits(library) {
        return Err(Refusal::WrongLibrary);
    }
    let (inputs, outputs, vertices) = first_record(bytes)?;
    let table = checks::memory_checked(inputs, outputs, vertices, table, scratch)?;
    Ok(table.board)
}

// The arcs of records that have been checked and have these loads, in a table without arcs.
fn fill(
    board: Board,
    bytes: &[u8],
    library: &Library,
    loads: &[u8],
    table: &mut [i32],
) -> Result<(), Fault>
    requires lent { Lent board table.old }
    requires in_bounds { 5 ≤ length bytes.now }
    requires vertices_in_bounds { board.vertices ≤ length loads.now }
    requires loads_value { loads_of loads.now ≡ file_loads board.vertices bytes.now }
    requires table_value { graph_in board table.old ≡ no_arcs }
    ensures { Loads board.vertices (file_checked library.now.cells.now (sizes_of board) bytes.now) table.old table.new result }
{
    place::place(bytes, board.vertices, library, loads, table);
    let read = Table {
        board,
        cells: table,
    };
    if let Err(refusal) = checks::arcs_checked(&read) {
        place::blank(table, board.vertices);
        return Err(Fault::from(refusal));
    }
    Ok(())
}

// The records after the first: checked all, then placed.
fn load(board: Board, bytes: &[u8], library: &Library, table: &mut [i32]) -> Result<(), Fault>
    requires lent { Lent board table.old }
    requires in_bounds { 5 ≤ length bytes.now }
    ensures { Loads board.vertices (arcs_read library.now.cells.now (sizes_of board) bytes.now) table.old table.new result }
{
    let n = board.vertices;
    place::blank(table, n);
    let mut loads = [0; Board::MAX_VERTICES];
    scan::scan(bytes, n, library.cells, &mut loads)?;
    fill(board, bytes, library, &loads, table)
}

// The board in the file, with its arcs in the table, its cells' ticks from the library. Refused before the sizes are good, it leaves the table; refused later, N × N absent cells.
pub fn read(
    bytes: &[u8],
    table: &mut [i32],
    scratch: &[i64],
    library: &[i32],
) -> Result<Board, Fault>
    ensures result_value { read_meaning result ≡ read_call library.now bytes.now table.old (length scratch.now) }
    ensures table_after { table.new ≡ table_read library.now bytes.now table.old (length scratch.now) }
{
    let board = open(bytes, library, table, scratch.len())?;
    let library = Library { cells: library };
    load(board, bytes, &library, table)?;
    Ok(board)
}
