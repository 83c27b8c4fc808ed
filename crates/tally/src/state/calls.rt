ghost use Rattle.std.specs.Prelude.{◌≡◌, ℕ, ◌<◌, ◌≤◌, List, [], ◌∷◌, ◌++◌, Some, None, MatchResult};
ghost use Rattle.graph.specs.declared.edge.Edge.{Edge as Pair};
ghost use Rattle.graph.specs.Edges.{edge};
ghost use Rattle.tally.specs.Counted.{Counted, counting};
ghost use Rattle.tally.specs.Begun.{Begun};

use super::Tally;
use crate::laying::Laying;
use graph::edge::Edge;
use graph::refusal::Refusal;

// The most numbers and the most clashes of a stock.
const NUMBERS: usize = 1024;

const CLASHES: usize = 16384;

// What a tally has come to, and the laying of as many clashes.
#[derive(Drop)]
pub struct Totals {
    pub n: usize,
    pub clashes: usize,
    pub laying: Laying,
}

impl Tally {
    // Nothing counted, of no numbers.
    pub fn empty() -> Self
        ensures { Counted 0 [] result }
    {
        Tally {
            n: 0,
            clashes: 0,
            previous: None,
            lengths: [0; 1024],
        }
    }

    // Begins anew for n numbers.
    pub fn open(&mut self, n: usize) -> Result<(), Refusal>
        ensures { MatchResult result (λ _. (n ≤ 1024) × Counted n [] self.new) (λ x. (1024 < n) × (x ≡ Refusal.TooLarge) × (self.new ≡ self.old)) }
    {
        if n > NUMBERS {
            return Err(Refusal::TooLarge);
        }
        *self = Tally {
            n,
            clashes: 0,
            previous: None,
            lengths: [0; 1024],
        };
        Ok(())
    }

    // Counts a clash.
    pub fn count(&mut self, a: usize, b: usize) -> Result<(), Refusal>
        ensures { (n : ℕ) (es : List Pair) → Counted n es self.old → MatchResult result (λ _. (counting n es a b ≡ None) × Counted n (es ++ edge a b ∷ []) self.new) (λ x. (counting n es a b ≡ Some x) × (self.new ≡ self.old)) }
    {
        if a >= self.n || b >= self.n {
            return Err(Refusal::OutOfRange);
        }
        let e = Edge {
            a: a as u16,
            b: b as u16,
        };
        if a >= b || !e.is_above(self.previous) {
            return Err(Refusal::Unordered);
        }
        if self.clashes >= CLASHES {
            return Err(Refusal::TooLarge);
        }
        self.lengths[a] += 1;
        self.lengths[b] += 1;
        self.clashes += 1;
        self.previous = Some(e);
        Ok(())
    }

    // Ends the counting: the totals, and the laying of as many clashes.
    pub fn totals(self) -> Totals
        ensures { (n : ℕ) (es : List Pair) → Counted n es self → Begun n es result }
    {
        let mut next = [0u16; 1024];
        let mut sum = 0u16;
        for (c, length) in self.lengths[..self.n].iter().enumerate() {
            next[c] = sum;
            sum += *length;
        }
        let Tally {
            n,
            clashes,
            previous: _,
            lengths,
        } = self;
        Totals {
            n,
            clashes,
            laying: Laying {
                n,
                clashes,
                previous: None,
                next,
                left: lengths,
            },
        }
    }
}
