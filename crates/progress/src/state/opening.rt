ghost use Rattle.calls.specs.declared.standing.Standing.TheVariants.{Loose, Ordered, Climbed};
ghost use Rattle.progress.specs.Holds.{Holds};
ghost use Rattle.std.specs.Prelude.{◌≡◌, if◌then◌else◌, nat_eq};

use super::Progress;
use arrayvec::ArrayVec;
use calls::standing::Standing;
use graph::Source;
use kernels::Kernel;
use order::vertex_count;

// Where a planner stands that has so many vertices left to climb.
pub(crate) fn standing_with(left: usize) -> Standing
    ensures { result ≡ (if nat_eq left 0 then Climbed else Ordered) }
{
    if left == 0 {
        Standing::Climbed
    } else {
        Standing::Ordered
    }
}

impl Progress {
    /// Nothing is found yet.
    pub fn new<S: Source>(source: &S) -> Self
        ensures { Holds (S.Source.graph source.now) Loose 0 0 result }
    {
        let held = vertex_count(source);
        Progress {
            standing: Standing::Loose,
            held,
            degeneracy: 0,
            order: ArrayVec::new(),
            climbed: 0,
            block: ArrayVec::new(),
            floor: 0,
            drives: [0; 1024],
            ceiling: held,
            kernel: Kernel::empty(),
            places: ArrayVec::new(),
            taken: ArrayVec::new(),
            found: [0; 256],
        }
    }

    /// Forgets what was found, for another graph.
    pub fn loosen<S: Source>(&mut self, source: &S)
        ensures { Holds (S.Source.graph source.now) Loose 0 0 self.new }
    {
        let held = vertex_count(source);
        self.climbed = 0;
        self.held = held;
        self.standing = Standing::Loose;
        self.degeneracy = 0;
        self.block.clear();
        self.floor = 0;
        self.ceiling = held;
    }
}
