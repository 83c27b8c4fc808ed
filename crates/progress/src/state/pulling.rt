ghost use Rattle.std.specs.Prelude.{◌≡◌, ℕ, ◌<◌, ◌≤◌, length, take, MatchOption, MatchResult};
ghost use Rattle.calls.specs.Fair.{PullAnswer, reply_of};
ghost use Rattle.calls.specs.Points.{Point};
ghost use Rattle.calls.specs.declared.standing.Standing.TheVariants.{Climbed, Pulled};
ghost use Rattle.finite.specs.Finite.{count, members};
ghost use Rattle.progress.specs.Holds.{Holds};
ghost use Rattle.supports.specs.Peel.{alive};

use super::Progress;
use super::fronts::front;
use calls::standing::Standing;
use cores::{core, list_living};
use graph::refusal::Refusal;
use graph::{Listed, Source};

impl Progress {
    /// Peels the graph at the size of the block: the core that stays is the kernel. Refused where it has more than
    /// 256 vertices.
    pub fn pull<S: Listed>(&mut self, source: &S) -> Result<(), Refusal>
        ensures { (x : Point) → Holds (S.Source.graph source.now) Climbed x.climbs x.noes self.old → PullAnswer (S.Source.graph source.now) x (reply_of result) × MatchResult result (λ _. Holds (S.Source.graph source.now) Pulled x.climbs x.noes self.new) (λ _. self.new ≡ self.old) }
    {
        let mut living = [0u8; 1024];
        let mut taken = [0u16; 1024];
        let len = core(source, self.block.len(), &mut living, &mut taken)?;
        let places = list_living(&living, source.size()).ok_or(Refusal::TooWide)?;
        self.kernel.draw(source, places.as_slice())?;
        self.places = places;
        self.taken = front(&taken, len);
        self.standing = Standing::Pulled;
        Ok(())
    }
}
