ghost use Rattle.calls.specs.Fair.{SparseEnough};
ghost use Rattle.calls.specs.Points.{climbed_to};
ghost use Rattle.graph.specs.declared.refusal.Refusal.TheVariants.{TooDense};
ghost use Rattle.order.specs.Order.{Dense};
ghost use Rattle.progress.specs.Holds.{Holds};
ghost use Rattle.std.specs.Prelude.{◌≡◌, MatchResult};

use super::Progress;
use super::fronts::front;
use super::opening::standing_with;
use graph::refusal::Refusal;
use graph::{Listed, Source};
use plan::plan;

impl Progress {
    /// Orders the graph and makes its first plan. Refused where its degeneracy is above 63.
    pub fn order<S: Listed>(&mut self, source: &S) -> Result<(), Refusal>
        ensures { MatchResult result (λ _. Holds (S.Source.graph source.now) (climbed_to (S.Source.graph source.now) 0) 0 0 self.new × SparseEnough (S.Source.graph source.now)) (λ x. (x ≡ TooDense) × Dense (S.Source.graph source.now) × (self.new ≡ self.old)) }
    {
        let mut order = [0u16; 1024];
        let mut drives = self.drives;
        let planned = plan(source, &mut order, &mut drives)?;
        self.order = front(&order, planned.len);
        self.drives = drives;
        self.climbed = 0;
        self.held = planned.len;
        self.degeneracy = planned.degeneracy;
        self.block.clear();
        self.floor = 0;
        self.ceiling = planned.drives;
        self.standing = standing_with(planned.len);
        Ok(())
    }
}
