// Board files and library files: marks and records. What they mean is in specs/.
#![tactic(auto)]

// The two bytes at a record's start.
#[derive(Clone, Copy)]
pub enum Mark {
    Board,
    Arc,
    Cell,
    End,
    Library,
    Other,
}

// A board file's record after the first.
#[derive(Clone, Copy)]
pub enum Record {
    // From, to, delay.
    Arc(usize, usize, i32),
    // From, to, cell code.
    Cell(usize, usize, u8),
    // The count of arcs.
    End(usize),
}

// A library file's record.
#[derive(Clone, Copy)]
pub enum Entry {
    // Cell code, ticks.
    Ticks(usize, i32),
    // The count of codes.
    End(usize),
}
