// The calls that leave the table: the matrix, the output arrivals, the margins and the finder.
use crate::calls::Lent;
use crate::page::Page;
use crate::{answers, input, lines, memory};
use finder::calls;
use paths::{margins, queries};
use timing::Refusal;

fn queried(page: &mut Page, answer: Result<(), Refusal>, delays: &[i64], lent: &Lent) {
    answers::query(page, answer);
    lines::table(page, lent.table);
    lines::destination(page, delays);
    lines::scratch(page, lent.scratch);
}

pub fn delay_matrix(lent: &mut Lent, page: &mut Page) -> Option<()> {
    let mut delays = [memory::DESTINATION; memory::CELLS];
    let delays = input::part(&mut delays)?;
    let answer = lent.call(|m, n, vertices, table, scratch| {
        queries::delay_matrix(m, n, vertices, table, scratch, delays)
    });
    queried(page, answer, delays, lent);
    Some(())
}

pub fn output_arrivals(lent: &mut Lent, page: &mut Page) -> Option<()> {
    let mut given = [0; memory::ARRIVALS];
    let given = input::list(&mut given)?;
    let mut delays = [memory::DESTINATION; memory::CELLS];
    let delays = input::part(&mut delays)?;
    let answer = lent.call(|m, n, vertices, table, scratch| {
        queries::output_arrivals(m, n, vertices, table, scratch, given, delays)
    });
    queried(page, answer, delays, lent);
    Some(())
}

pub fn margins(lent: &Lent, page: &mut Page) -> Option<()> {
    let mut given = [0; memory::ARRIVALS];
    let given = input::list(&mut given)?;
    let mut due = [0; memory::ARRIVALS];
    let due = input::list(&mut due)?;
    let mut arrival = [memory::DESTINATION; memory::CELLS];
    let arrival = input::part(&mut arrival)?;
    let mut required = [memory::DESTINATION; memory::CELLS];
    let required = input::part(&mut required)?;
    let mut margin = [memory::DESTINATION; memory::CELLS];
    let margin = input::part(&mut margin)?;
    let answer = margins::margins(
        lent.inputs,
        lent.outputs,
        lent.vertices,
        lent.table,
        lent.scratch,
        given,
        due,
        arrival,
        required,
        margin,
    );
    answers::query(page, answer);
    lines::table(page, lent.table);
    lines::destination(page, arrival);
    lines::destination(page, required);
    lines::destination(page, margin);
    lines::scratch(page, lent.scratch);
    Some(())
}

pub fn find_star(lent: &Lent, page: &mut Page) {
    let answer = calls::find_star(
        lent.inputs,
        lent.outputs,
        lent.vertices,
        lent.table,
        lent.scratch,
    );
    answers::found(page, answer);
    lines::left(page, lent);
}
