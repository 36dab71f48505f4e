// Sets of numbers below 128, a bit for each: two words.
#![tactic(auto)]

ghost use Rattle.std.specs.Prelude.{◌≡◌, true, false, not, ◌&&◌, ◌||◌, ℕ, ◌≤◌, ◌<◌, T, leb, ltb, eqb, MatchOption};
ghost use Rattle.sets.specs.Words.{odd};
ghost use Rattle.sets.specs.Sets.{room, holds};

// The word with bit i.
fn one(i: usize) -> u64
    requires { i < 64 }
    ensures { (j : ℕ) → odd result j ≡ eqb j i }
{
    1u64 << i
}

// Whether a word has bit i.
fn has_bit(x: u64, i: usize) -> bool
    requires { i < 64 }
    ensures { result ≡ odd x i }
{
    (x >> i) & 1 == 1
}

// Two words: as one u128 a run on the board `rounds` took 23.1 million instructions in place of 18.7, when it was tried. That a member is below 128 stays a clause: a type
// of such numbers would be made anew for each vertex that is asked about.
#[derive(Clone, Copy, Debug, PartialEq, Eq)]
pub struct Set {
    low: u64,
    high: u64,
}

impl Set {
    pub fn empty() -> Set
        ensures { (u : ℕ) → holds result u ≡ false }
    {
        Set { low: 0, high: 0 }
    }

    // The numbers from `from` on, below `to`.
    pub fn range(from: usize, to: usize) -> Set
        requires ordered { from ≤ to }
        requires to_bound { to ≤ room }
        ensures { (u : ℕ) → holds result u ≡ (leb from u && ltb u to) }
    {
        let mut set = Set::empty();
        for v in from..to {
            set = set.plus(v);
        }
        set
    }

    pub fn has(self, v: usize) -> bool
        requires { v < room }
        ensures { result ≡ holds self v }
    {
        if v < 64 {
            return has_bit(self.low, v);
        }
        has_bit(self.high, v - 64)
    }

    // And v.
    pub fn plus(self, v: usize) -> Set
        requires { v < room }
        ensures { (u : ℕ) → holds result u ≡ (eqb u v || holds self u) }
    {
        if v < 64 {
            return Set {
                low: one(v) | self.low,
                high: self.high,
            };
        }
        Set {
            low: self.low,
            high: one(v - 64) | self.high,
        }
    }

    // But not v.
    pub fn minus(self, v: usize) -> Set
        requires { v < room }
        ensures { (u : ℕ) → holds result u ≡ (holds self u && not (eqb u v)) }
    {
        if v < 64 {
            return Set {
                low: self.low & !one(v),
                high: self.high,
            };
        }
        Set {
            low: self.low,
            high: self.high & !one(v - 64),
        }
    }

    pub fn or(self, other: Set) -> Set
        ensures { (u : ℕ) → holds result u ≡ (holds self u || holds other u) }
    {
        Set {
            low: self.low | other.low,
            high: self.high | other.high,
        }
    }

    pub fn and(self, other: Set) -> Set
        ensures { (u : ℕ) → holds result u ≡ (holds self u && holds other u) }
    {
        Set {
            low: self.low & other.low,
            high: self.high & other.high,
        }
    }

    pub fn without(self, other: Set) -> Set
        ensures { (u : ℕ) → holds result u ≡ (holds self u && not (holds other u)) }
    {
        Set {
            low: self.low & !other.low,
            high: self.high & !other.high,
        }
    }

    pub fn is_empty(self) -> bool
        ensures u_value { result ≡ true → (u : ℕ) → holds self u ≡ false }
        ensures by_index { result ≡ false → (u : ℕ) × T (holds self u) }
    {
        (self.low | self.high) == 0
    }

    // The least member.
    pub fn first(self) -> Option<usize>
        ensures { MatchOption result ((u : ℕ) → holds self u ≡ false) (λ v. (v < room) × T (holds self v) × ((u : ℕ) → u < v → holds self u ≡ false)) }
    {
        if self.low != 0 {
            // There is no `From<u32>` for usize.
            return Some(self.low.trailing_zeros() as usize);
        }
        if self.high != 0 {
            return Some(64 + self.high.trailing_zeros() as usize);
        }
        None
    }
}
