ghost use Rattle.std.specs.Prelude.{◌≤◌};
ghost use Rattle.placings.specs.Rows.{Even, Loopless, linked};

mod edits;
mod reads;

/// A graph on the places below `count`: `i` and `j` are joined where bit `j % 64` of word `j / 64` of row `i` is set.
// By hand: a type of its own beside the picture, whose rows are one word that the search meets as a mask.
#[derive(Drop)]
pub struct Kernel {
    count: usize,
    rows: [[u64; 4]; 256],
    ghost small: { count ≤ 256 },
    ghost even: { Even count (linked rows) },
    ghost loopless: { Loopless count (linked rows) },
}
