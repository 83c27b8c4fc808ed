ghost use Rattle.calls.specs.Table.{loose};
ghost use Rattle.progress.specs.Holds.{ToldRight};
ghost use Rattle.std.specs.Prelude.{◌≡◌, if◌then◌else◌, nat_eq};

use super::Progress;
use calls::call::Report;
use calls::standing::Standing;

impl Progress {
    /// Where the planner stands.
    pub fn standing(&self) -> Standing
        ensures { result ≡ self.now.standing }
    {
        self.standing
    }

    // 1 where floor and ceiling meet, and the planner is not loose.
    fn proved(&self) -> u8
        ensures { result ≡ (if loose self.now.standing then 0 else (if nat_eq self.now.floor self.now.ceiling then 1 else 0)) }
    {
        match self.standing {
            Standing::Loose => 0,
            _ if self.floor == self.ceiling => 1,
            _ => 0,
        }
    }

    /// The eight numbers.
    pub fn report(&self) -> Report
        ensures { ToldRight self.now result }
    {
        Report {
            standing: u8::from(self.standing),
            held: self.held,
            degeneracy: self.degeneracy,
            climbed: self.climbed,
            block: self.block.len(),
            floor: self.floor,
            ceiling: self.ceiling,
            proved: self.proved(),
        }
    }
}
