// Masks of 64 places as sets of numbers: the contracts speak of `bit` and `count` alone.
#![tactic(auto)]

ghost use Rattle.std.specs.Prelude.{ℕ, ◌^◌, ◌<◌, ◌≤◌, ◌==◌, nat_lt, ◌&&◌, ◌||◌, not, true, false, ◌≡◌};
ghost use Rattle.finite.specs.Finite.{count};
ghost use Rattle.finite.specs.Masks.{bit};
ghost use Rattle.masks.specs.Members.{Steps};
ghost use Rattle.std.specs.Iterator.{at_most};

// Whether `i` is a member of `m`.
pub fn has(m: u64, i: usize) -> bool
    requires { i < 64 }
    ensures { result ≡ bit m i }
{
    m >> i & 1 == 1
}

// How many members `m` has.
pub fn size(m: u64) -> u32
    ensures value { result ≡ count (bit m) 64 }
    ensures bound { result ≤ 64 }
{
    m.count_ones()
}

// The lowest member of `m`.
pub fn lowest(m: u64) -> usize
    requires { 0 < m }
    ensures place { result < 64 }
    ensures member { bit m result ≡ true }
    ensures least { (j : ℕ) → j < result → bit m j ≡ false }
{
    m.trailing_zeros() as usize
}

// The highest member of `m`.
pub fn highest(m: u64) -> usize
    requires { 0 < m }
    ensures place { result < 64 }
    ensures member { bit m result ≡ true }
    ensures most { (j : ℕ) → bit m j ≡ true → j ≤ result }
{
    63 - m.leading_zeros() as usize
}

// `m` and `i`.
pub fn with(m: u64, i: usize) -> u64
    requires { i < 64 }
    ensures { (j : ℕ) → bit result j ≡ (bit m j || j == i) }
{
    m | 1 << i
}

// `m` but for its member `i`.
pub fn without(m: u64, i: usize) -> u64
    requires place { i < 64 }
    requires member { bit m i ≡ true }
    ensures members { (j : ℕ) → bit result j ≡ (bit m j && not (j == i)) }
    ensures less { result < m }
{
    m ^ 1 << i
}

// The members of both.
pub fn meet(a: u64, b: u64) -> u64
    ensures members { (j : ℕ) → bit result j ≡ (bit a j && bit b j) }
    ensures bound { result ≤ a }
{
    a & b
}

// The members of `a` that are not in `b`.
pub fn minus(a: u64, b: u64) -> u64
    ensures { (j : ℕ) → bit result j ≡ (bit a j && not (bit b j)) }
{
    a ^ a & b
}

// The numbers below `n`.
pub fn below(n: usize) -> u64
    requires { n ≤ 64 }
    ensures { (j : ℕ) → bit result j ≡ nat_lt j n }
{
    if n == 64 { u64::MAX } else { (1 << n) - 1 }
}

// The members of a mask, rising.
#[derive(Clone, Copy)]
pub struct Members {
    rest: u64,
}

impl Members {
    // The members of `m`, one after another.
    pub fn of(m: u64) -> Members
        ensures { result.rest ≡ m }
    {
        Members { rest: m }
    }
}

impl Iterator for Members {
    type Item = usize;

    ghost next_gives = { λ s r t. Steps s.rest r t.rest };

    ghost remaining = { λ s. at_most (count (bit s.rest) 64) };

    fn next(&mut self) -> Option<usize> {
        if self.rest == 0 {
            return None;
        }
        let i = lowest(self.rest);
        self.rest = without(self.rest, i);
        Some(i)
    }
}
