ghost use Rattle.graph.specs.Graph.{clash};
ghost use Rattle.stamps.specs.Stamped.{Stamped};

use graph::Listed;
use graph::neighbours::Neighbours;

// Writes the stamp at each neighbour of `v`.
pub(crate) fn write<S: Listed>(source: &S, v: usize, table: &mut [u8; 1024], stamp: u8)
    ensures { Stamped (S.Source.graph source.now) v stamp table.old table.new }
{
    for b in Neighbours::of(source, v) {
        table[b] = stamp;
    }
}
