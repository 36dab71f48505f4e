// The whole text of `thin`: the size, the arcs and the counts of a board file that was read and reduced, or its refusal.
#![tactic(auto)]

ghost use Rattle.std.specs.Prelude.{◌≡◌, ◌≤◌, ◌<◌, ◌^◌, length};
ghost use Rattle.timing.specs.Refusal.{number};
ghost use Rattle.format.specs.Library.{built_in};
ghost use Rattle.format.specs.Reading.{got};
ghost use Rattle.format.specs.Text.{refused_line, reduced_text, most_cells, most_scratch, text_of, thin_text};
ghost use Rattle.paths.specs.Tables.{table_sizes, IsSound};
ghost use Rattle.records.specs.Appending.{Appends};
ghost use Rattle.records.specs.Writing.{HasRoom, Puts};
ghost use Rattle.paths.specs.Board.{sizes_of};
ghost use Rattle.text.specs.Text.{text_bytes};

use files::answer::Fault;
use files::write::Lines;
use files::{library, place, read, write};
use paths::{Board, Table};
use records::library::CODES;
use records::lines;
use records::put::Writer;
use run::answer::Ran;
use run::calls;
use timing::numbers;

// The bytes that the longest text needs. That `out` has as many stays a clause: `&mut [u8; PAGE]` would ask more of a public caller than a slice that is at least
// as long.
pub const PAGE: usize = 88_149;

fn refused_text(fault: Fault, out: &mut [u8]) -> usize
    requires at_bound { fault.at < 10 ^ 10 }
    requires text_bytes_in_bounds { text_bytes ≤ length out.old }
    ensures appends { Appends (refused_line (number fault.refusal) fault.at) out.old 0 out.new result }
    ensures upper_bound { result ≤ text_bytes }
{
    let mut w = Writer::new(out);
    lines::refused_line(&mut w, numbers::number(fault.refusal), fault.at);
    w.at
}

fn put_reduced(w: &mut Writer, table: &Table, ran: Ran)
    requires sound { IsSound table.now }
    requires steps_bound { ran.steps < 10 ^ 4 }
    requires arcs_bound { ran.arcs < 10 ^ 4 }
    requires room { HasRoom (reduced_text (table_sizes table.now) (record { table = table.now.cells.now; steps = ran.steps; arcs_left = ran.arcs })) w.old }
    ensures { Puts (reduced_text (table_sizes table.now) (record { table = table.now.cells.now; steps = ran.steps; arcs_left = ran.arcs })) w.old w.new }
{
    let board = table.board;
    lines::board_line(w, board.inputs, board.outputs, board.vertices);
    write::put_arcs::<Lines>(w, table);
    lines::counts_line(w, ran.steps, ran.arcs);
}

fn reduced_text(table: &Table, ran: Ran, out: &mut [u8]) -> usize
    requires sound { IsSound table.now }
    requires steps_bound { ran.steps < 10 ^ 4 }
    requires arcs_bound { ran.arcs < 10 ^ 4 }
    requires text_bytes_in_bounds { text_bytes ≤ length out.old }
    ensures appends { Appends (reduced_text (table_sizes table.now) (record { table = table.now.cells.now; steps = ran.steps; arcs_left = ran.arcs })) out.old 0 out.new result }
    ensures upper_bound { result ≤ text_bytes }
{
    let mut w = Writer::new(out);
    put_reduced(&mut w, table, ran);
    w.at
}

// The text of a board that was read.
fn run_text(board: Board, table: &mut [i32], scratch: &mut [i64], out: &mut [u8]) -> usize
    requires scratch_len { length scratch.old ≡ most_scratch }
    requires text_bytes_in_bounds { text_bytes ≤ length out.old }
    ensures appends { Appends (text_of table.old (got (sizes_of board))) out.old 0 out.new result }
    ensures upper_bound { result ≤ text_bytes }
{
    match calls::run(board.inputs, board.outputs, board.vertices, table, scratch) {
        Ok(ran) => {
            let left = Table {
                board,
                cells: table,
            };
            reduced_text(&left, ran, out)
        }
        Err(refusal) => refused_text(Fault::from(refusal), out),
    }
}

// The text, with a lent table and scratch; what they held does not matter.
fn text_into(
    input: &[u8],
    library: &[i32],
    table: &mut [i32],
    scratch: &mut [i64],
    out: &mut [u8],
) -> usize
    requires input_len_bound { length input.now ≤ 65536 }
    requires library_value { library.now ≡ built_in }
    requires table_len { length table.old ≡ most_cells }
    requires scratch_len { length scratch.old ≡ most_scratch }
    requires text_bytes_in_bounds { text_bytes ≤ length out.old }
    ensures appends { Appends (thin_text input.now) out.old 0 out.new result }
    ensures upper_bound { result ≤ text_bytes }
{
    place::blank(table, Board::MAX_VERTICES);
    match read::read(input, table, scratch, library) {
        Ok(board) => run_text(board, table, scratch, out),
        Err(fault) => refused_text(fault, out),
    }
}

// Writes the text into the first bytes of `out`, and answers how many.
pub fn thin_text(input: &[u8], out: &mut [u8]) -> usize
    requires input_len_bound { length input.now ≤ 65536 }
    requires text_bytes_in_bounds { text_bytes ≤ length out.old }
    ensures appends { Appends (thin_text input.now) out.old 0 out.new result }
    ensures upper_bound { result ≤ text_bytes }
{
    let mut library = [0; CODES];
    library::built_in(&mut library);
    let mut table = [0; Board::MAX_CELLS];
    let mut scratch = [0; Board::MAX_SCRATCH];
    text_into(input, &library, &mut table, &mut scratch, out)
}
