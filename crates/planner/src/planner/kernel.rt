ghost use Rattle.calls.specs.declared.call.Call.TheVariants.{Pull, Try, PutBack};
ghost use Rattle.calls.specs.Fair.{tried};
ghost use Rattle.planner.specs.Explains.{Serves};
ghost use Rattle.planner.specs.Slips.{pulled, returned};

use super::Planner;
use bounds::Bound;
use calls::standing::Operation;
use graph::refusal::Refusal;
use graph::{Listed, Source};

/// A token that a pull hands out and a put back takes. It can be neither copied nor let go.
pub struct Slip {
    token: (),
}

impl<S: Listed + Drop, B: Bound + Drop> Planner<S, B> {
    /// Takes the kernel out: what stays when the stock is peeled at the block's size. Refused by 3, and by 5 where it
    /// has more than 256 cartridges.
    pub fn pull(&mut self) -> Result<Slip, Refusal>
        ensures { Serves S.Source.graph self.old Pull (pulled result) self.new }
    {
        if !self.takes(Operation::Pull) {
            return Err(Refusal::OutOfTurn);
        }
        self.progress.pull(&self.layer)?;
        Ok(Slip { token: () })
    }

    /// Says whether as many drives as the floor are enough for the kernel; a no raises the floor by 1. Refused by 3.
    pub fn try_floor(&mut self) -> Result<bool, Refusal>
        ensures { Serves S.Source.graph self.old Try (tried result) self.new }
    {
        if !self.takes(Operation::Try) {
            return Err(Refusal::OutOfTurn);
        }
        Ok(self.progress.try_floor())
    }

    /// Puts the kernel back: after a yes with the drives found, otherwise with the plan as it was. Refused by 6, and
    /// then the slip comes back.
    pub fn put_back(&mut self, slip: Slip) -> Result<(), (Refusal, Slip)>
        ensures { Serves S.Source.graph self.old PutBack (returned result) self.new }
    {
        if !self.takes(Operation::PutBack) {
            return Err((Refusal::NothingPulled, slip));
        }
        let Slip { token: _ } = slip;
        self.progress.put_back(&self.layer);
        Ok(())
    }
}
