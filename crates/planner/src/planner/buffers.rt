ghost use Rattle.calls.specs.Buffers.{BlockTold, PlanTold};
ghost use Rattle.calls.specs.Points.{History, graph_at, point_at};
ghost use Rattle.caps.specs.Cap.{CappedIn, CapFits, CapRefused};
ghost use Rattle.graph.specs.Graph.{Graph};
ghost use Rattle.planner.specs.Explains.{Explains};
ghost use Rattle.std.specs.Prelude.{◌≡◌, length, MatchResult};

use super::Planner;
use bounds::Bound;
use calls::row::Row;
use calls::standing::Operation;
use graph::edge::Edge;
use graph::refusal::Refusal;
use graph::{Listed, Source};
use layers::HideLayer;

impl<S: Listed + Drop, B: Bound + Drop> Planner<S, B> {
    /// Writes the block's cartridges, rising, to the front of the buffer, and answers how many they are. Refused by 3,
    /// and by 7 where the buffer is shorter.
    pub fn block(&self, out: &mut [u16]) -> Result<usize, Refusal>
        ensures { (g : Graph) (h : History) → Explains S.Source.graph g h self.now → BlockTold (graph_at g (point_at g h)) (point_at g h) out.old out.new result }
    {
        if !self.takes(Operation::Block) {
            return Err(Refusal::OutOfTurn);
        }
        self.progress.write_block(out)
    }

    /// Writes a row for each number to the front of the buffer: the number and its drive, 0 where it is not held.
    /// Refused by 3, and by 7 where the buffer is shorter.
    pub fn plan(&self, rows: &mut [Row]) -> Result<(), Refusal>
        ensures { (g : Graph) (h : History) → Explains S.Source.graph g h self.now → PlanTold (graph_at g (point_at g h)) (point_at g h) rows.old rows.new result }
    {
        if !self.takes(Operation::Plan) {
            return Err(Refusal::OutOfTurn);
        }
        self.progress.write_plan(&self.layer, rows)
    }

    /// The cap of what is held: a number that no clash set exceeds. Lists all clashes, writes 1 in `living` at those of
    /// the last community and 0 at the others, and leaves the first n marks 0. Refused by 11, and by 7 where a buffer
    /// is shorter.
    pub fn cap(
        &self,
        clashes: &mut [Edge],
        living: &mut [u8],
        marks: &mut [u8],
    ) -> Result<usize, Refusal>
        ensures cases { (g : Graph) (h : History) → Explains S.Source.graph g h self.now → MatchResult result (λ top. CappedIn (graph_at g (point_at g h)) clashes.old clashes.new living.old living.new marks.old marks.new top) (λ _. (clashes.new ≡ clashes.old) × (living.new ≡ living.old) × (marks.new ≡ marks.old)) }
        ensures refused { (g : Graph) (h : History) → Explains S.Source.graph g h self.now → MatchResult result (λ _. CapFits (graph_at g (point_at g h)) (length clashes.old) (length living.old) (length marks.old)) (λ x. CapRefused (graph_at g (point_at g h)) (length clashes.old) (length living.old) (length marks.old) x) }
    {
        capping::cap(&self.layer, clashes, living, marks)
    }
}
