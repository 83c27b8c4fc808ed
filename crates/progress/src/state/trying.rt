ghost use Rattle.std.specs.Prelude.{ℕ, ◌+◌, if◌then◌else◌};
ghost use Rattle.calls.specs.Fair.{TryAnswer};
ghost use Rattle.calls.specs.Points.{Point};
ghost use Rattle.calls.specs.declared.call.Reply.TheVariants.{Tried};
ghost use Rattle.calls.specs.declared.standing.Standing.TheVariants.{Pulled, Won};
ghost use Rattle.graph.specs.Graph.{Graph, Lawful};
ghost use Rattle.progress.specs.Holds.{Holds};

use super::Progress;
use calls::standing::Standing;
use trials::colour;

impl Progress {
    /// Tries whether the kernel has a proper colouring in 1 to the floor, and raises the floor if it has none.
    pub fn try_floor(&mut self) -> bool
        ensures { (g : Graph) (x : Point) → Lawful g → Holds g Pulled x.climbs x.noes self.old → TryAnswer g x (Tried result) × Holds g (if result then Won else Pulled) x.climbs (if result then x.noes else x.noes + 1) self.new }
    {
        let mut found = self.found;
        let won = colour(&self.kernel, &mut found, self.floor).unwrap();
        if won {
            self.found = found;
            self.standing = Standing::Won;
        } else {
            self.floor = self.floor.saturating_add(1);
        }
        won
    }
}
