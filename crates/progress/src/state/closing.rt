ghost use Rattle.std.specs.Prelude.{ℕ, MatchResult};
ghost use Rattle.calls.specs.declared.standing.Standing.TheVariants.{Climbed, Pulled, Won, Closed};
ghost use Rattle.progress.specs.Holds.{Holds, NewPlan};

use super::Progress;
use calls::standing::Standing;
use graph::refusal::Refusal;
use graph::{Listed, Source};
use putback::{lay, put_back};

impl Progress {
    // The new plan: the kernel keeps the drives found, and those taken out get the lowest drive free, last taken
    // first.
    fn new_plan<S: Listed>(&self, source: &S) -> Result<[u16; 1024], Refusal>
        ensures { (climbs noes : ℕ) → Holds (S.Source.graph source.now) Won climbs noes self.now → MatchResult result (λ drives. NewPlan (S.Source.graph source.now) climbs self.now.floor drives) (λ _. ⊥) }
    {
        let mut drives = [0u16; 1024];
        lay(self.places.as_slice(), &self.found, &mut drives)?;
        put_back(source, self.taken.as_slice(), &mut drives)?;
        Ok(drives)
    }

    /// Puts back what a pull took out. After a yes that makes the new plan; otherwise the plan stays.
    pub fn put_back<S: Listed>(&mut self, source: &S)
        ensures given_up { (climbs noes : ℕ) → Holds (S.Source.graph source.now) Pulled climbs noes self.old → Holds (S.Source.graph source.now) Climbed climbs noes self.new }
        ensures closed { (climbs noes : ℕ) → Holds (S.Source.graph source.now) Won climbs noes self.old → Holds (S.Source.graph source.now) Closed climbs noes self.new }
    {
        match self.standing {
            Standing::Won => {
                if let Ok(drives) = self.new_plan(source) {
                    self.drives = drives;
                    self.ceiling = self.floor;
                    self.standing = Standing::Closed;
                }
            }
            _ => self.standing = Standing::Climbed,
        }
    }
}
