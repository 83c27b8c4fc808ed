ghost use Rattle.std.specs.Prelude.{ℕ, ◌≤◌, slice_index};

mod turns;

// At each number the turn in which it was a neighbour last.
#[derive(Drop)]
pub struct Stamps {
    table: [u8; 1024],
    turn: u8,
    ghost past: { (c : ℕ) → slice_index table c ≤ turn },
}
