// The line about a call's answer.
use crate::page::Page;
use files::answer::Fault;
use finder::best::Found;
use paths::Board;
use run::answer::Ran;
use timing::{Refusal, numbers};

fn refused(page: &mut Page, refusal: Refusal) {
    page.print(format_args!("refused {}\n", numbers::number(refusal)));
}

fn refused_at(page: &mut Page, fault: Fault) {
    let number = numbers::number(fault.refusal);
    page.print(format_args!("refused {number} at {}\n", fault.at));
}

// A count, after the word for what it counts.
pub fn counted(page: &mut Page, word: &str, answer: Result<usize, Refusal>) {
    match answer {
        Ok(count) => page.print(format_args!("{word} {count}\n")),
        Err(r) => refused(page, r),
    }
}

pub fn ran(page: &mut Page, answer: Result<Ran, Refusal>) {
    match answer {
        Ok(Ran { steps, arcs }) => page.print(format_args!("accepted {steps} arcs {arcs}\n")),
        Err(r) => refused(page, r),
    }
}

pub fn found(page: &mut Page, answer: Result<Option<Found>, Refusal>) {
    match answer {
        Ok(Some(Found { vertex, saving })) => {
            page.print(format_args!("star {vertex} saving {saving}\n"));
        }
        Ok(None) => page.print("none\n"),
        Err(r) => refused(page, r),
    }
}

pub fn query(page: &mut Page, answer: Result<(), Refusal>) {
    match answer {
        Ok(()) => page.print("ok\n"),
        Err(r) => refused(page, r),
    }
}

pub fn read(page: &mut Page, answer: Result<Board, Fault>) {
    match answer {
        Ok(board) => {
            let inputs = board.inputs;
            let outputs = board.outputs;
            let vertices = board.vertices;
            page.print(format_args!("board {inputs} {outputs} {vertices}\n"));
        }
        Err(fault) => refused_at(page, fault),
    }
}

// Not one function with `query`: a `Fault` has its offset printed too, and a trait for both refusals would be longer than this match.
pub fn scanned(page: &mut Page, answer: Result<(), Fault>) {
    match answer {
        Ok(()) => page.print("ok\n"),
        Err(fault) => refused_at(page, fault),
    }
}
