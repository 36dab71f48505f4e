// The six steps and the run: what they are given comes from standard input, and what they answer is printed.
use crate::calls::Lent;
use crate::input::{self, Number};
use crate::page::Page;
use crate::{answers, lines, memory};
use steps::calls;
use timing::Refusal;

// Makes a step, given m, n, N, the table and the scratch.
fn make<S: FnOnce(usize, usize, usize, &mut [i32], &mut [i64]) -> Result<usize, Refusal>>(
    lent: &mut Lent,
    page: &mut Page,
    step: S,
)
    requires { S.IsAlwaysCallable step }
{
    answers::counted(page, "left", lent.call(step));
    lines::left(page, lent);
}

pub fn shrink(lent: &mut Lent, page: &mut Page) -> Option<()> {
    let k = usize::next()?;
    make(lent, page, |m, n, vertices, table, scratch| {
        calls::shrink(m, n, vertices, table, scratch, k)
    });
    Some(())
}

pub fn share_inputs(lent: &mut Lent, page: &mut Page) -> Option<()> {
    let a = usize::next()?;
    let b = usize::next()?;
    let k = usize::next()?;
    make(lent, page, |m, n, vertices, table, scratch| {
        calls::share_inputs(m, n, vertices, table, scratch, a, b, k)
    });
    Some(())
}

pub fn share_outputs(lent: &mut Lent, page: &mut Page) -> Option<()> {
    let a = usize::next()?;
    let b = usize::next()?;
    make(lent, page, |m, n, vertices, table, scratch| {
        calls::share_outputs(m, n, vertices, table, scratch, a, b)
    });
    Some(())
}

pub fn prune(lent: &mut Lent, page: &mut Page) {
    make(lent, page, calls::prune);
}

pub fn merge_back(lent: &mut Lent, page: &mut Page) -> Option<()> {
    let o = usize::next()?;
    make(lent, page, |m, n, vertices, table, scratch| {
        calls::merge_back(m, n, vertices, table, scratch, o)
    });
    Some(())
}

pub fn star(lent: &mut Lent, page: &mut Page) -> Option<()> {
    let mut sources = [0; memory::VERTICES];
    let sources = input::list(&mut sources)?;
    let mut targets = [0; memory::VERTICES];
    let targets = input::list(&mut targets)?;
    let k = usize::next()?;
    make(lent, page, |m, n, vertices, table, scratch| {
        calls::star(m, n, vertices, table, scratch, sources, targets, k)
    });
    Some(())
}

pub fn run(lent: &mut Lent, page: &mut Page) {
    answers::ran(page, lent.call(run::calls::run));
    lines::left(page, lent);
}
