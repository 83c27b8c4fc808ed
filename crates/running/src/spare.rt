// A planner over nothing, which gives a slip and takes one.
ghost use Rattle.calls.specs.declared.standing.Standing.TheVariants.{Climbed, Pulled};
ghost use Rattle.running.specs.Spares.{SpareAt};

use crate::nothing::Nothing;
use bounds::SizeBound;
use planner::{Planner, Slip};

// A planner over nothing that is ready to be pulled.
pub(crate) fn open_spare() -> Planner<Nothing, SizeBound>
    ensures { SpareAt Climbed result }
{
    let mut spare = Planner::open(Nothing {}, SizeBound {});
    let _ = spare.order();
    spare
}

// Takes a slip from it.
pub(crate) fn take_slip(spare: &mut Planner<Nothing, SizeBound>) -> Slip
    requires { SpareAt Climbed spare.old }
    ensures { SpareAt Pulled spare.new }
{
    match spare.pull() {
        Ok(slip) => slip,
        Err(_) => unreachable(),
    }
}

// Gives it a slip.
pub(crate) fn give_slip(spare: &mut Planner<Nothing, SizeBound>, slip: Slip)
    requires { SpareAt Pulled spare.old }
    ensures { SpareAt Climbed spare.new }
{
    match spare.put_back(slip) {
        Ok(()) => {}
        Err(_) => unreachable(),
    }
}
