// The six steps, each on a table that has passed its checks: its conditions, then its new table. No arc is counted here.
ghost use Rattle.reduction.specs.Steps as document;
ghost use Rattle.paths.specs.Checked.{Passable};
ghost use Rattle.paths.specs.Board.{ScratchRoom, PastScratch};
ghost use Rattle.plans.specs.OnBoards.{Applies};

use crate::apply;
use paths::order::Order;
use paths::{Board, Sorted, Table, cells};
use plans::{rewrite, share_inputs, share_outputs};
use pruning::prune;
use timing::Refusal;

// A step with its vertices, any numbers.
pub trait Step {
    // Document 01's step.
    ghost meaning: { Self → document.Step };

    // Board, table and order stay parameters, as `plans::rewrite` says; order and scratch are there for the steps that need them.
    fn apply(
        &self,
        board: Board,
        table: &mut [i32],
        order: &Order,
        scratch: &mut [i64],
    ) -> Result<(), Refusal>
        requires { Passable board table.old order.now × (ScratchRoom board scratch.old) }
        ensures applies { Applies board (meaning self.now) table.old table.new result }
        ensures past_scratch { PastScratch board scratch.old scratch.new };
}

// One struct for a shrink that is called and one that is accepted: there is nothing more to know of it.
pub use plans::shrink::Shrink;

#[derive(Clone, Copy)]
pub struct ShareInputs {
    pub a: usize,
    pub b: usize,
    pub k: usize,
}

#[derive(Clone, Copy)]
pub struct ShareOutputs {
    pub a: usize,
    pub b: usize,
}

#[derive(Clone, Copy)]
pub struct Prune;

#[derive(Clone, Copy)]
pub struct MergeBack {
    pub o: usize,
}

#[derive(Clone, Copy)]
pub struct Star<'a> {
    pub sources: &'a [usize],
    pub targets: &'a [usize],
    pub k: usize,
}

impl Step for Shrink {
    ghost meaning = { λ x. document.shrink x.k };

    fn apply(
        &self,
        board: Board,
        table: &mut [i32],
        _order: &Order,
        _scratch: &mut [i64],
    ) -> Result<(), Refusal> {
        apply::apply_shrink(board, table, self.k)
    }
}

impl Step for ShareInputs {
    ghost meaning = { λ x. document.share_inputs x.a x.b x.k };

    fn apply(
        &self,
        board: Board,
        table: &mut [i32],
        order: &Order,
        scratch: &mut [i64],
    ) -> Result<(), Refusal> {
        let ShareInputs { a, b, k } = *self;
        let sorted = Sorted {
            table: Table {
                board,
                cells: table,
            },
            order: *order,
        };
        let e = share_inputs::share_inputs_verdict(&sorted, scratch, a, b, k)?;
        let e = cells::narrow(e);
        share_inputs::share(board, table, a, b, k, e);
        Ok(())
    }
}

impl Step for ShareOutputs {
    ghost meaning = { λ x. document.share_outputs x.a x.b };

    fn apply(
        &self,
        board: Board,
        table: &mut [i32],
        order: &Order,
        scratch: &mut [i64],
    ) -> Result<(), Refusal> {
        let ShareOutputs { a, b } = *self;
        let sorted = Sorted {
            table: Table {
                board,
                cells: table,
            },
            order: *order,
        };
        let e = share_outputs::share_outputs_verdict(&sorted, scratch, a, b)?;
        let e = cells::narrow(e);
        rewrite::rewrite(board, table, &share_outputs::ShareOutputs { a, b, e });
        Ok(())
    }
}

impl Step for Prune {
    ghost meaning = { λ _. document.prune };

    fn apply(
        &self,
        board: Board,
        table: &mut [i32],
        order: &Order,
        scratch: &mut [i64],
    ) -> Result<(), Refusal> {
        prune::prune_step(board, table, order, scratch)
    }
}

impl Step for MergeBack {
    ghost meaning = { λ x. document.merge_back x.o };

    fn apply(
        &self,
        board: Board,
        table: &mut [i32],
        _order: &Order,
        _scratch: &mut [i64],
    ) -> Result<(), Refusal> {
        apply::apply_merge_back(board, table, self.o)
    }
}

impl<'a> Step for Star<'a> {
    ghost meaning = { λ x. document.star x.sources.now x.targets.now x.k };

    fn apply(
        &self,
        board: Board,
        table: &mut [i32],
        _order: &Order,
        _scratch: &mut [i64],
    ) -> Result<(), Refusal> {
        apply::apply_star(board, table, self.sources, self.targets, self.k)
    }
}
