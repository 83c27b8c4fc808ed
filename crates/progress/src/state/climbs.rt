ghost use Rattle.std.specs.Prelude.{◌≡◌, ℕ, ◌+◌, ◌-◌, Ok};
ghost use Rattle.calls.specs.Points.{climbed_to};
ghost use Rattle.calls.specs.declared.standing.Standing.TheVariants.{Ordered};
ghost use Rattle.graph.specs.Graph.{vertices};
ghost use Rattle.progress.specs.Holds.{Holds};

use super::Progress;
use super::fronts::front;
use super::opening::standing_with;
use bounds::Bound;
use climb::climb_step;
use graph::refusal::Refusal;
use graph::{Listed, Source};

impl Progress {
    /// Climbs the last vertex of the order that is not climbed yet, and answers how many are left.
    pub fn climb<S: Listed, B: Bound>(&mut self, source: &S, bound: &B) -> Result<usize, Refusal>
        ensures { (climbs noes : ℕ) → Holds (S.Source.graph source.now) Ordered climbs noes self.old → (result ≡ Ok (vertices (S.Source.graph source.now) - (climbs + 1))) × Holds (S.Source.graph source.now) (climbed_to (S.Source.graph source.now) (climbs + 1)) (climbs + 1) noes self.new }
    {
        let held = self.held;
        let climbed = self.climbed;
        if climbed >= held {
            return Err(Refusal::OutOfTurn);
        }
        let at = held - climbed - 1;
        let len = self.block.len();
        let mut table = [0u16; 64];
        table[..len].copy_from_slice(self.block.as_slice());
        let new = climb_step(source, bound, self.order.as_slice(), at, &mut table, len)?;
        self.block = front(&table, new);
        self.floor = new;
        self.climbed = climbed + 1;
        self.standing = standing_with(at);
        Ok(at)
    }
}
