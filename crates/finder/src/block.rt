// The sources and the targets of a vertex's star, as lists.
ghost use Rattle.std.specs.Prelude.{◌≡◌, ◌++◌, ◌+◌, ◌≤◌, length, take};
ghost use Rattle.laws.specs.Bounded.{those};
ghost use Rattle.timing.specs.Limits.{max_vertices};
ghost use Rattle.sets.specs.Sets.{room, holds};

use paths::Board;
use sets::Set;

// The first so many places of each are filled. It is lent to what fills it: returned, it would stand on the stack once more.
#[derive(Clone, Copy)]
pub struct Block {
    pub sources: [usize; Board::MAX_VERTICES],
    pub source_count: usize,
    pub targets: [usize; Board::MAX_VERTICES],
    pub target_count: usize,
}

impl Block {
    pub fn empty() -> Block {
        Block {
            sources: [0; Board::MAX_VERTICES],
            source_count: 0,
            targets: [0; Board::MAX_VERTICES],
            target_count: 0,
        }
    }
}

// Puts the members of a set into a list, rising, from place `from` on. Answers how many places are filled then.
pub fn list_members(set: Set, list: &mut [usize; Board::MAX_VERTICES], from: usize) -> usize
    requires { from + length (those room (holds set)) ≤ max_vertices }
    ensures count { result ≡ from + length (those room (holds set)) }
    ensures listed { take result list.new ≡ take from list.old ++ those room (holds set) }
{
    let mut next = from;
    let mut done = Set::empty();
    while let Some(v) = set.without(done).first() {
        list[next] = v;
        next += 1;
        done = done.plus(v);
    }
    next
}
