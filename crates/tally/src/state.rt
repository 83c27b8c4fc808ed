ghost use Rattle.std.specs.Prelude.{◌≡◌, ◌+◌, ◌≤◌, sum};

use graph::edge::Edge;

mod calls;

pub use calls::Totals;

// Clashes counted: how many there are, the last of them, and how long each row is.
#[derive(Drop)]
pub struct Tally {
    n: usize,
    clashes: usize,
    previous: Option<Edge>,
    // By hand: a state that is moved keeps its rows in a plain table, with their number beside it.
    lengths: [u16; 1024],
    ghost small: { n ≤ 1024 },
    ghost few: { clashes ≤ 16384 },
    ghost total: { sum lengths ≡ clashes + clashes },
}
