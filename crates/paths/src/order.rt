// Topological order: check 6. Each vertex waits for its arcs in; the smallest that waits for none is placed next. O(N²).
ghost use Rattle.std.specs.Prelude.{◌≡◌, cond, ◌+◌, ◌<◌, ◌≤◌, eqb, length, get_or, MatchOption};
ghost use Rattle.timing.specs.Limits.{max_vertices};
ghost use Rattle.paths.specs.Tables.{timing_graph};
ghost use Rattle.paths.specs.Order.{Ordered, stands_before, FansIn, Raisable, Raised, Lowerable, Lowered, NoZero};

use crate::board::Board;
use crate::cells;
use crate::table::Table;

// The vertices, a byte each, so that every arc rises. How many bytes are in use the board says, or n where there is no board: a length of its own would say it again,
// for whoever asks about an order has its table.
pub type Order = [u8; Board::MAX_VERTICES];

// Adds a row's arcs to the counts of their targets. What is asked of the counts, and what is left of them, tells this from `lower`: one function over the sign would say both.
fn raise(row: &[i32], fan: &mut [u8; Board::MAX_VERTICES])
    requires row_few { length row.now ≤ max_vertices }
    requires fan_len { length fan.old ≡ max_vertices }
    requires raisable { Raisable (length row.now) fan.old }
    ensures { Raised (length row.now) row.now fan.old fan.new }
{
    for (v, &cell) in row.iter().enumerate() {
        fan[v] += u8::from(cells::is_arc(cell));
    }
}

// Takes a row's arcs off the counts of their targets.
fn lower(row: &[i32], fan: &mut [u8; Board::MAX_VERTICES])
    requires row_few { length row.now ≤ max_vertices }
    requires fan_len { length fan.old ≡ max_vertices }
    requires lowerable { Lowerable (length row.now) row.now fan.old }
    ensures { Lowered (length row.now) row.now fan.old fan.new }
{
    for (v, &cell) in row.iter().enumerate() {
        fan[v] -= u8::from(cells::is_arc(cell));
    }
}

// How many arcs lead into each vertex, by rows.
fn fans(table: &Table) -> [u8; Board::MAX_VERTICES]
    ensures { FansIn table.now.board.vertices (timing_graph table.now) result }
{
    let mut fan = [0u8; Board::MAX_VERTICES];
    for u in 0..table.board.vertices {
        raise(table.row(u), &mut fan);
    }
    fan
}

// The first vertex from `from` on whose count is 0. In a frame of its own: inlined, the search moves two places in the table along, which the row that is taken off
// then begins at, and the matrix of the board `ladder` takes 157 thousand instructions in place of 149.
#[inline(never)]
fn ready(fan: &[u8], from: usize) -> Option<usize>
    requires { from ≤ length fan.now }
    ensures { MatchOption result (NoZero (length fan.now) fan.now from) (λ u. (u < length fan.now) × (get_or fan.now u 0 ≡ 0) × NoZero u fan.now from) }
{
    for v in from..fan.len() {
        if fan[v] == 0 {
            return Some(v);
        }
    }
    None
}

// Where the next search begins, once u is placed: all before it are.
fn past(from: usize, u: usize) -> usize
    requires { u < max_vertices }
    ensures { result ≡ cond (eqb u from) (u + 1) from }
{
    if u == from {
        return u + 1;
    }
    from
}

// Check 6: a topological order, where there is no cycle. A placed vertex's count is 100, which it never loses: no more than 90 arcs lead into a vertex. As an Option
// it would be asked about at every cell of every row that is taken off.
pub fn topological_order(table: &Table) -> Option<Order>
    ensures { Ordered table.now.board.vertices (timing_graph table.now) result }
{
    let n = table.board.vertices;
    let mut order = [0u8; Board::MAX_VERTICES];
    let mut fan = fans(table);
    let mut from = 0;
    for p in 0..n {
        let Some(u) = ready(&fan[..n], from) else {
            return None;
        };
        lower(table.row(u), &mut fan);
        fan[u] = 100;
        // A vertex is less than 90: `as`, for the reason in `cells`.
        order[p] = u as u8;
        from = past(from, u);
    }
    Some(order)
}

// Whether a stands before b among the first n bytes of `order`.
pub fn stands_before(order: &Order, n: usize, a: usize, b: usize) -> bool
    requires { n ≤ max_vertices }
    ensures { result ≡ stands_before n order.now a b }
{
    for x in &order[..n] {
        let v = usize::from(*x);
        if v == b {
            break;
        }
        if v == a {
            return true;
        }
    }
    false
}
