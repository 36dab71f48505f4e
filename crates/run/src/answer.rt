// What an accepted run answers.

// The steps that it accepted, and the arcs left.
#[derive(Clone, Copy)]
pub struct Ran {
    pub steps: usize,
    pub arcs: usize,
}
