// Pass 2: the arcs of a file whose records have been checked are placed by value. A record is told by its offset in the file, as in `records::parse`. Here n is
// the board's number of vertices and no slice's length: `table` is lent with room, and `loads` has a place for each of 90 vertices. As the length of a part of
// one of them it would be no plainer. That n is at most 90 stays a clause, here, in `scan` and in `records::parse`: a `Board` would ask more of the caller, and
// `text` has a table of 90 vertices blanked that is no board's. The file, n and the library stay apart, as in `scan`: a library's file is read without n and without a
// library, and a struct of all three would be made for the two passes alone.
ghost use Rattle.std.specs.Prelude.{◌≡◌, ◌*◌, ◌≤◌, length};
ghost use Rattle.timing.specs.Limits.{max_vertices};
ghost use Rattle.timing.specs.Table.{graph_of, with_graph};
ghost use Rattle.format.specs.Reading.{no_arcs};
ghost use Rattle.files.specs.Loads.{loads_of};
ghost use Rattle.files.specs.Place.{Places, NextWithin, all_placed};

use crate::library::Library;
use crate::loads;
use format::Record;
use paths::cells;
use records::parse;

// The arc that a record places, and the offset of the next record.
#[derive(Clone, Copy)]
pub struct Placed {
    pub from: usize,
    pub to: usize,
    pub delay: i32,
    pub next: usize,
}

// No arcs.
pub fn blank(table: &mut [i32], n: usize)
    requires n_le_max_vertices { n ≤ max_vertices }
    requires n_in_bounds { n * n ≤ length table.old }
    ensures { table.new ≡ with_graph n no_arcs table.old }
{
    let end = n * n;
    cells::clear(&mut table[..end]);
}

// `loads` has the load of each vertex. Library and loads stay two parameters, here, in `read` and in `scan`: the scan writes the loads that are read here, and a struct
// of both would be made for one call.
fn next_arc(bytes: &[u8], n: usize, library: &Library, loads: &[u8], at: usize) -> Option<Placed>
    requires at_in_bounds { at ≤ length bytes.now }
    requires n_in_bounds { n ≤ length loads.now }
    ensures places { Places library.now.cells.now n bytes.now (loads_of loads.now) at result }
    ensures next_within { NextWithin n (length bytes.now) at result }
{
    match parse::record_at(bytes, n, at) {
        Ok(Record::Arc(from, to, delay)) => Some(Placed {
            from,
            to,
            delay,
            next: at + 8,
        }),
        Ok(Record::Cell(from, to, code)) => Some(Placed {
            from,
            to,
            delay: loads::cell_delay(library, code, loads[to]),
            next: at + 5,
        }),
        Ok(Record::End(_)) | Err(_) => None,
    }
}

// The arcs of the records, one after another.
pub fn place(bytes: &[u8], n: usize, library: &Library, loads: &[u8], table: &mut [i32])
    requires in_bounds { 5 ≤ length bytes.now }
    requires n_le_max_vertices { n ≤ max_vertices }
    requires n_in_bounds { n ≤ length loads.now }
    requires table_room { n * n ≤ length table.old }
    ensures graph_after { graph_of n table.new ≡ all_placed library.now.cells.now n bytes.now (loads_of loads.now) table.old }
    ensures table_after { table.new ≡ with_graph n (all_placed library.now.cells.now n bytes.now (loads_of loads.now) table.old) table.old }
{
    let mut at = 5;
    while let Some(arc) = next_arc(bytes, n, library, loads, at) {
        table[parse::cell_of(n, arc.from, arc.to)] = arc.delay;
        at = arc.next;
    }
}
