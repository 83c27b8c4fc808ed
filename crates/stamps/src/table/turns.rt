ghost use Rattle.std.specs.Prelude.{◌≡◌, ℕ};
ghost use Rattle.graph.specs.Graph.{clash};
ghost use Rattle.stamps.specs.Near.{near};

use super::Stamps;
use crate::writing::write;
use graph::Listed;

impl Stamps {
    // A table that was not turned to a vertex yet.
    pub fn new() -> Self
        ensures { result.turn ≡ 0 }
    {
        Stamps {
            table: [0; 1024],
            turn: 0,
        }
    }

    // Turns to the neighbours of `v`.
    pub fn turn_to<S: Listed>(&mut self, source: &S, v: usize)
        ensures { (c : ℕ) → near self.new c ≡ clash (S.Source.graph source.now) v c }
    {
        if self.turn == u8::MAX {
            *self = Stamps::new();
        }
        let turn = self.turn + 1;
        write(source, v, &mut self.table, turn);
        self.turn = turn;
    }

    // Whether `c` is a neighbour of the vertex that the table was turned to last.
    pub fn is_near(&self, c: usize) -> bool
        ensures { result ≡ near self.now c }
    {
        c < 1024 && self.table[c] == self.turn
    }
}
