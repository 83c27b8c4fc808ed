// Listing the edges of a graph, smaller end first, rising.
ghost use Rattle.std.specs.Prelude.{◌≡◌, ℕ, ◌+◌, ◌<◌, ◌≤◌, ◌++◌, length, take, drop};
ghost use Rattle.graph.specs.Edges.{edges_at};
ghost use Rattle.caps.specs.Cap.{edge_count, EdgesIn};

use graph::edge::Edge;
use graph::neighbours::Neighbours;
use graph::{Listed, Source};

// How many neighbours above it a has.
fn count_later<S: Listed>(source: &S, a: usize) -> usize
    ensures { result ≡ length (edges_at (S.Source.graph source.now) a) }
{
    Neighbours::of(source, a).filter(|b| a < *b).count()
}

// How many edges there are.
pub fn edge_total<S: Listed>(source: &S) -> usize
    ensures { result ≡ edge_count (S.Source.graph source.now) }
{
    (0..source.size()).map(|a| count_later(source, a)).sum()
}

// Writes from place `start` on the edges whose smaller end is a. Returns the place after them.
fn write_row<S: Listed>(source: &S, a: usize, clashes: &mut [Edge], start: usize) -> usize
    requires within { a < (S.Source.graph source.now).size }
    requires room { start + length (edges_at (S.Source.graph source.now) a) ≤ length clashes.old }
    ensures front { take result clashes.new ≡ take start clashes.old ++ edges_at (S.Source.graph source.now) a }
    ensures value { result ≡ start + length (edges_at (S.Source.graph source.now) a) }
    ensures rest { drop result clashes.new ≡ drop result clashes.old }
{
    let mut len = start;
    for b in Neighbours::of(source, a) {
        if a < b {
            // By hand: the buffer is the caller's, and only its front is written.
            clashes[len] = Edge {
                a: a as u16,
                b: b as u16,
            };
            len += 1;
        }
    }
    len
}

// Writes all edges. Returns how many they are.
pub fn write_edges<S: Listed>(source: &S, clashes: &mut [Edge]) -> usize
    requires { edge_count (S.Source.graph source.now) ≤ length clashes.old }
    ensures value { result ≡ edge_count (S.Source.graph source.now) }
    ensures edges { EdgesIn (S.Source.graph source.now) clashes.old clashes.new }
{
    let mut len = 0;
    for a in 0..source.size() {
        len = write_row(source, a, clashes, len);
    }
    len
}
