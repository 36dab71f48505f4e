// The lines about lent memory.
use crate::calls::Lent;
use crate::memory;
use crate::page::Page;
use paths::cells;
use std::fmt;

// What a table's cell holds.
#[derive(Clone, Copy)]
struct Cell(i32);

impl fmt::Display for Cell {
    fn fmt<W: fmt::Write>(&self, f: &mut fmt::Formatter<W>) -> fmt::Result {
        if cells::is_arc(self.0) {
            write!(f, "{}", self.0)
        } else {
            write!(f, "-")
        }
    }
}

// A list's name and its elements, each after a space.
fn list<T: Copy, D: fmt::Display + Drop, S: Fn(T) -> D>(
    page: &mut Page,
    name: &str,
    list: &[T],
    shown: S,
)
    requires { S.IsAlwaysCallable shown }
{
    page.print(name);
    for x in list {
        page.print(format_args!(" {}", shown(*x)));
    }
    page.print("\n");
}

pub fn table(page: &mut Page, table: &[i32]) {
    list(page, "table", table, Cell);
}

pub fn library(page: &mut Page, library: &[i32]) {
    list(page, "library", library, Cell);
}

pub fn destination<T: Copy + fmt::Display + Drop>(page: &mut Page, destination: &[T]) {
    list(page, "destination", destination, |x| x);
}

pub fn scratch(page: &mut Page, scratch: &[i64]) {
    page.print(format_args!("scratch {}\n", memory::touched(scratch)));
}

// The table and the scratch, as a call left them.
pub fn left(page: &mut Page, lent: &Lent) {
    table(page, lent.table);
    scratch(page, lent.scratch);
}
