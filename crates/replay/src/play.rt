// The whole replay: sizes, lent memory, and calls to the end.
use crate::calls::{Kind, Lent};
use crate::file_calls::Library;
use crate::input::{self, Number};
use crate::page::Page;
use crate::{file_calls, memory, query_calls, step_calls};

// Makes the next call. `None` where it has no kind, the input ends inside it, or a list is longer than the program's memory.
//
// Lent memory, library and page stay parameters: most calls take two of them, and would name a struct of all three at each use.
fn call(lent: &mut Lent, library: &mut Library, page: &mut Page) -> Option<()> {
    let kind = Kind::try_from(u8::next()?).ok()?;
    // One match, for the input says the kind: a function chosen by it would be handed out, which `rt ci` refuses.
    match kind {
        Kind::Shrink => step_calls::shrink(lent, page)?,
        Kind::ShareInputs => step_calls::share_inputs(lent, page)?,
        Kind::ShareOutputs => step_calls::share_outputs(lent, page)?,
        Kind::Prune => step_calls::prune(lent, page),
        Kind::MergeBack => step_calls::merge_back(lent, page)?,
        Kind::Star => step_calls::star(lent, page)?,
        Kind::Run => step_calls::run(lent, page),
        Kind::DelayMatrix => query_calls::delay_matrix(lent, page)?,
        Kind::OutputArrivals => query_calls::output_arrivals(lent, page)?,
        Kind::Write => file_calls::write(lent, page)?,
        Kind::Read => file_calls::read(lent, library, page)?,
        Kind::Margins => query_calls::margins(lent, page)?,
        Kind::ReadLibrary => file_calls::read_library(lent, library, page)?,
        Kind::PutLibrary => file_calls::put_library(library)?,
        Kind::FindStar => query_calls::find_star(lent, page),
    }
    Some(())
}

// The calls, each with a scratch of the same room. Nothing says that the input ends, so they are counted, up to a number that no replay reaches.
pub fn play(page: &mut Page) -> Option<()> {
    let inputs = usize::next()?;
    let outputs = usize::next()?;
    let vertices = usize::next()?;
    let mut table = [0; memory::CELLS];
    let table = input::part(&mut table)?;
    let mut scratch = [0; memory::CELLS];
    let scratch = input::part(&mut scratch)?;
    input::fill(table)?;
    let mut lent = Lent {
        inputs,
        outputs,
        vertices,
        table,
        scratch,
    };
    let mut library = Library::built_in();
    for _ in 0..u64::MAX {
        lent.scratch.fill(memory::SCRATCH);
        call(&mut lent, &mut library, page)?;
    }
    Some(())
}
