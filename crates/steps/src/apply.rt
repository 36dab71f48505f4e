// Shrink, merge back and star, which need neither an order nor a scratch.
ghost use Rattle.reduction.specs.Steps.{shrink, merge_back, star};
ghost use Rattle.paths.specs.Checked.{Checked};
ghost use Rattle.plans.specs.OnBoards.{Applies};

use paths::{Board, Table};
use plans::{merge_back, rewrite, shrink};
use stars::star;
use timing::Refusal;

pub fn apply_shrink(board: Board, table: &mut [i32], k: usize) -> Result<(), Refusal>
    requires { Checked board table.old }
    ensures { Applies board (shrink k) table.old table.new result }
{
    shrink::shrink_verdict(
        &Table {
            board,
            cells: table,
        },
        k,
    )?;
    rewrite::rewrite(board, table, &shrink::Shrink { k });
    Ok(())
}

pub fn apply_merge_back(board: Board, table: &mut [i32], o: usize) -> Result<(), Refusal>
    requires { Checked board table.old }
    ensures { Applies board (merge_back o) table.old table.new result }
{
    let (v, d) = merge_back::merge_back_verdict(
        &Table {
            board,
            cells: table,
        },
        o,
    )?;
    rewrite::rewrite(board, table, &merge_back::MergeBack { v, o, d });
    Ok(())
}

pub fn apply_star(
    board: Board,
    table: &mut [i32],
    sources: &[usize],
    targets: &[usize],
    k: usize,
) -> Result<(), Refusal>
    requires { Checked board table.old }
    ensures { Applies board (star sources.now targets.now k) table.old table.new result }
{
    let read = Table {
        board,
        cells: table,
    };
    star::star_verdict(&read, sources, targets, k)?;
    star::star_apply(board, table, sources, targets, k);
    Ok(())
}
