// Replays calls from standard input on one lent table and one library, and prints what each answered and what it left in lent memory.
//
// Numbers have their low byte first. First come m, n and N, of 8 bytes, the lengths of the table and of the scratch, of 2, and the table's cells, of 4.
// Then come the calls: a byte for the kind (calls.rt), and what the call is given, counts and lengths of 2 bytes, cells of 4, vertices and times of 8. The library is the built-in one until a call brings another.
#![tactic(auto)]

mod answers;
mod calls;
mod file_calls;
mod input;
mod lines;
mod memory;
mod page;
mod play;
mod query_calls;
mod step_calls;

use crate::page::Page;

fn main() {
    let mut page = Page::new();
    play::play(&mut page);
    page.flush();
}
