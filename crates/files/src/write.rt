// Writing a board file: BD, an AR for each arc, rising, and EN. The arcs can be written as lines too.
ghost use Rattle.std.specs.Prelude.{◌≡◌, List, ℕ, ◌<◌, T, length};
ghost use Rattle.graph.specs.Count.{arcs};
ghost use Rattle.timing.specs.Limits.{absent_cell, delay_limit, fits};
ghost use Rattle.timing.specs.Table.{read_cell};
ghost use Rattle.format.specs.Arcs.{Arc};
ghost use Rattle.format.specs.Writing.{arc_record, end_record, write_call};
ghost use Rattle.format.specs.Text.{arc_line};
ghost use Rattle.paths.specs.Tables.{timing_graph, IsSound, of_table};
ghost use Rattle.records.specs.Appending.{RoomFor, Appends};
ghost use Rattle.records.specs.Lines.{DelayInRange};
ghost use Rattle.records.specs.Writing.{HasRoom, Puts};
ghost use Rattle.files.specs.Forms.{cell_as, row_as, table_as};
ghost use Rattle.files.specs.Writing.{Writes, board_mark, board_file, file_on};

use paths::{Board, Sorted, Table, cells, checks};
use records::lines;
use records::put::Writer;
use timing::Refusal;

// How arcs are written. An arc stays three numbers, and that its ends are below 256 a clause, here, in `put_cell` and in `records::lines`: a struct would be made at
// each cell, to be taken apart at once. So do two ends alone, in `Table::cell` and `records::parse`.
pub trait Form {
    ghost text: { Arc → List ℕ };

    fn put(w: &mut Writer, u: usize, v: usize, delay: i32)
        requires u_bound { u < 256 }
        requires v_bound { v < 256 }
        requires delay_in_range { DelayInRange delay }
        requires room { HasRoom (text (record { from = u; to = v; delay = delay })) w.old }
        ensures { Puts (text (record { from = u; to = v; delay = delay })) w.old w.new };
}

#[derive(Clone, Copy)]
pub struct Records;

#[derive(Clone, Copy)]
pub struct Lines;

impl Form for Records {
    ghost text = { arc_record };

    fn put(w: &mut Writer, u: usize, v: usize, delay: i32) {
        w.text(b"AR");
        w.small(u);
        w.small(v);
        w.signed(4, i64::from(delay));
    }
}

impl Form for Lines {
    ghost text = { arc_line };

    fn put(w: &mut Writer, u: usize, v: usize, delay: i32) {
        lines::arc_line(w, u, v, delay);
    }
}

// The bytes of an AR, and of BD and EN together.
const ARC_BYTES: usize = 8;

const FRAME_BYTES: usize = 9;

fn put_board(w: &mut Writer, board: Board)
    requires { HasRoom (board_mark board) w.old }
    ensures { Puts (board_mark board) w.old w.new }
{
    w.text(b"BD");
    w.small(board.inputs);
    w.small(board.outputs);
    w.small(board.vertices);
}

// The arc of a cell, if it has one.
fn put_cell<F: Form>(w: &mut Writer, u: usize, v: usize, cell: i32)
    requires u_bound { u < 256 }
    requires v_bound { v < 256 }
    requires cell_in_range { T (fits delay_limit (read_cell absent_cell cell)) }
    requires room { HasRoom (cell_as F.text u v cell) w.old }
    ensures { Puts (cell_as F.text u v cell) w.old w.new }
{
    if cells::is_arc(cell) {
        F::put(w, u, v, cell);
    }
}

fn put_end(w: &mut Writer, count: usize)
    requires count_bound { count < 65536 }
    requires room { HasRoom (end_record count) w.old }
    ensures { Puts (end_record count) w.old w.new }
{
    w.text(b"EN");
    w.unsigned(2, count);
}

// The arcs out of u.
fn put_row<F: Form>(w: &mut Writer, table: &Table, u: usize)
    requires sound { IsSound table.now }
    requires u_lt_vertices { u < table.now.board.vertices }
    requires room { HasRoom (of_table (row_as F.text) table.now u) w.old }
    ensures { Puts (of_table (row_as F.text) table.now u) w.old w.new }
{
    for v in 0..table.board.vertices {
        put_cell::<F>(w, u, v, table.cell(u, v));
    }
}

// All arcs.
pub fn put_arcs<F: Form>(w: &mut Writer, table: &Table)
    requires sound { IsSound table.now }
    requires room { HasRoom (of_table (table_as F.text) table.now) w.old }
    ensures { Puts (of_table (table_as F.text) table.now) w.old w.new }
{
    for u in 0..table.board.vertices {
        put_row::<F>(w, table, u);
    }
}

// The whole file. The count of its arcs is handed on by `file_answer`, so as not to be made twice; it is no length of `out`.
fn put_file(sorted: &Sorted, count: usize, out: &mut [u8]) -> usize
    requires count_value { count ≡ arcs sorted.now.table.board.vertices (timing_graph sorted.now.table) }
    requires room_for { RoomFor (of_table board_file sorted.now.table) out.old 0 }
    ensures { Appends (of_table board_file sorted.now.table) out.old 0 out.new result }
{
    let mut w = Writer::new(out);
    put_board(&mut w, sorted.table.board);
    put_arcs::<Records>(&mut w, &sorted.table);
    put_end(&mut w, count);
    w.at
}

// The file of a table that has passed its checks; 21 where it does not fit.
fn file_answer(sorted: &Sorted, destination: &mut [u8]) -> Result<usize, Refusal>
    ensures { Writes (of_table file_on sorted.now.table destination.old) destination.old destination.new result }
{
    let count = sorted.table.arcs();
    if destination.len() < FRAME_BYTES + ARC_BYTES * count {
        return Err(Refusal::DestinationShort);
    }
    Ok(put_file(sorted, count, destination))
}

// Writes the board file of a table into the first bytes of `out`, and answers how many.
pub fn write(
    inputs: usize,
    outputs: usize,
    vertices: usize,
    table: &[i32],
    scratch: &[i64],
    out: &mut [u8],
) -> Result<usize, Refusal>
    ensures { Writes (write_call inputs outputs vertices (length scratch.now) table.now out.old) out.old out.new result }
{
    let sorted = checks::checked(inputs, outputs, vertices, table, scratch.len())?;
    file_answer(&sorted, out)
}
