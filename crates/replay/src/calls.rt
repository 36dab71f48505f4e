// What a call is made with.

// Document 01's m, n and N, of any size, and the lent memory.
#[derive(Drop)]
pub struct Lent<'t, 's> {
    pub inputs: usize,
    pub outputs: usize,
    pub vertices: usize,
    pub table: &'t mut [i32],
    pub scratch: &'s mut [i64],
}

impl Lent<'_, '_> {
    // What a call answers, given m, n, N, the table and the scratch.
    pub fn call<A, F: FnOnce(usize, usize, usize, &mut [i32], &mut [i64]) -> A>(
        &mut self,
        call: F,
    ) -> A
        requires { F.IsAlwaysCallable call }
    {
        call(
            self.inputs,
            self.outputs,
            self.vertices,
            self.table,
            self.scratch,
        )
    }
}

#[derive(Clone, Copy)]
pub enum Kind {
    Shrink,
    ShareInputs,
    ShareOutputs,
    Prune,
    MergeBack,
    Star,
    Run,
    DelayMatrix,
    OutputArrivals,
    Write,
    Read,
    Margins,
    ReadLibrary,
    PutLibrary,
    FindStar,
}

impl TryFrom<u8> for Kind {
    type Error = ();

    fn try_from(code: u8) -> Result<Kind, ()> {
        match code {
            1 => Ok(Kind::Shrink),
            2 => Ok(Kind::ShareInputs),
            3 => Ok(Kind::ShareOutputs),
            4 => Ok(Kind::Prune),
            5 => Ok(Kind::MergeBack),
            6 => Ok(Kind::Star),
            7 => Ok(Kind::Run),
            8 => Ok(Kind::DelayMatrix),
            9 => Ok(Kind::OutputArrivals),
            10 => Ok(Kind::Write),
            11 => Ok(Kind::Read),
            12 => Ok(Kind::Margins),
            13 => Ok(Kind::ReadLibrary),
            14 => Ok(Kind::PutLibrary),
            15 => Ok(Kind::FindStar),
            _ => Err(()),
        }
    }
}
