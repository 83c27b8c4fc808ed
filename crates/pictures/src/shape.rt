ghost use Rattle.std.specs.Prelude.{◌≤◌};
ghost use Rattle.grids.specs.Grid.{Even, Held, Loopless};

mod edits;
mod reads;

// A graph on the places below `count`: row `i` is the mask of the neighbours of `i`.
// By hand: one type for rows of any number of words would make each mask of the search an array of one word.
#[derive(Drop)]
pub struct Picture {
    count: usize,
    rows: [u64; 64],
    ghost small: { count ≤ 64 },
    ghost even: { Even rows },
    ghost loopless: { Loopless rows },
    ghost held: { Held rows count },
}
