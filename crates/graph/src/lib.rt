#![tactic(auto)]

ghost use Rattle.std.specs.Prelude.{◌≡◌, ℕ, ◌<◌, ◌≤◌, true, false, MatchOption};
ghost use Rattle.finite.specs.Finite.{count, members, nth};
ghost use Rattle.graph.specs.Graph.{Graph, Lawful, held, clash, degree};

pub mod edge;
pub mod neighbours;
pub mod refusal;

// A graph on the numbers below `size`, known by three questions.
pub trait Source {
    ghost graph: { Self → Graph };

    fn size(&self) -> usize
        ensures { result ≡ (graph self.now).size };

    fn holds(&self, c: usize) -> bool
        ensures { result ≡ held (graph self.now) c };

    fn clashes(&self, a: usize, b: usize) -> bool
        ensures { result ≡ clash (graph self.now) a b };

    ghost lawful: { (s : Self) → Lawful (graph s) };
}

// A source that gives the neighbours of each number, rising.
pub trait Listed: Source {
    fn degree(&self, c: usize) -> usize
        ensures { result ≡ degree (Self.Source.graph self.now) c }
    {
        (0..self.size()).filter(|b| self.clashes(c, *b)).count()
    }

    fn neighbour(&self, c: usize, i: usize) -> Option<usize>
        ensures listed { result ≡ nth (members (clash (Self.Source.graph self.now) c) (Self.Source.graph self.now).size) i }
        ensures ranked { MatchOption result (degree (Self.Source.graph self.now) c ≤ i) (λ b. (b < (Self.Source.graph self.now).size) × (clash (Self.Source.graph self.now) c b ≡ true) × (count (clash (Self.Source.graph self.now) c) b ≡ i)) }
    {
        (0..self.size()).filter(|b| self.clashes(c, *b)).nth(i)
    }
}
