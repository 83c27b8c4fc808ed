ghost use Rattle.std.specs.Prelude.{◌≤◌};
ghost use Rattle.tally.specs.Within.{Within};

use graph::edge::Edge;

mod lays;

// Clashes laid into rows: the next place of each row, and how many places are left in it.
#[derive(Drop)]
pub struct Laying {
    pub(crate) n: usize,
    pub(crate) clashes: usize,
    pub(crate) previous: Option<Edge>,
    // By hand: a state that is moved keeps its rows in plain tables, with their number beside them.
    pub(crate) next: [u16; 1024],
    pub(crate) left: [u16; 1024],
    ghost small: { n ≤ 1024 },
    ghost few: { clashes ≤ 16384 },
    ghost places: { Within next left clashes },
}
