ghost use Rattle.std.specs.Prelude.{◌≡◌, ◌<◌, ◌≤◌, length, MatchOption};
ghost use Rattle.climbing.specs.Climbs.{Searched, later_list};
ghost use Rattle.graph.specs.Graph.{Graph, Lawful};

use crate::MOST_LATER;
use arrayvec::ArrayVec;

// A graph that is climbed: how the later neighbours of a vertex are found, and a largest clique of some vertices.
pub trait Terrain {
    ghost graph: { Self → Graph };

    fn size(&self) -> usize
        ensures { result ≡ (graph self.now).size };

    // The later neighbours of the vertex at `at`, the last first: `None` if more than 63.
    fn later(&self, order: &[u16], at: usize) -> Option<ArrayVec<u16, MOST_LATER>>
        requires { at < length order.now }
        ensures { MatchOption result (63 < length (later_list (graph self.now) order.now at)) (λ q. q.items ≡ later_list (graph self.now) order.now at) };

    // A largest clique of the chosen vertices, as a mask of their places, if it has `len` members or more.
    fn reaching(&self, chosen: &[u16], len: usize) -> Option<u64>
        requires { length chosen.now ≤ 63 }
        ensures { Searched (graph self.now) chosen.now len result };

    ghost lawful: { (s : Self) → Lawful (graph s) };
}
