//! The edges of a graph as items: the support of an edge is how many vertices living edges join to both its ends.
#![tactic(auto)]

ghost use Rattle.std.specs.Prelude.{◌≡◌, ℕ, ◌+◌, ◌<◌, ◌≤◌, true, false, cond, ◌&&◌, length};
ghost use Rattle.finite.specs.Finite.{count};
ghost use Rattle.supports.specs.Peel.{alive};
ghost use Rattle.items.specs.Marks.{Wiped};
ghost use Rattle.cohesion.specs.Common.{linked, common, Listing, Chained};
ghost use Rattle.cohesion.proofs.Links.{common_falls};

use graph::edge::Edge;
use items::{Peeled, wipe};
use walks::{Edges, chain, is_listing};

mod walks;

// Lent marks, of which the first `size` are cleared when they are given back.
struct Marks<'a> {
    bytes: &'a mut [u8],
    size: usize,
}

impl Drop for Marks<'_> {
    fn drop(self)
        ensures { Wiped self.entry.size self.entry.bytes.now self.exit.0.now }
    {
        let n = self.size;
        wipe(self.bytes, n);
        let Marks { bytes: _, size: _ } = self;
    }
}

/// The vertices are the numbers below `size`.
#[derive(Clone, Copy)]
pub struct Below {
    pub size: usize,
}

/// The edges of a rising list as items.
impl Peeled<Edge> for Below {
    ghost items = { λ _ list. length list };

    ghost room = { λ s _. s.size };

    ghost support = { λ s list. common s.size list };

    ghost proper = { λ s list. Listing s.size list };

    ghost indexed = { λ s list table. Chained s.size list table };

    ghost falls = { λ x list. common_falls x.size list };

    fn item_count(&self, list: &[Edge]) -> usize {
        list.len()
    }

    fn mark_count(&self, _list: &[Edge]) -> usize {
        self.size
    }

    fn index(&self, list: &[Edge], table: &mut [u16]) -> bool {
        if !is_listing(list, self.size) {
            return false;
        }
        chain(list, self.size, table);
        true
    }

    fn support_of(
        &self,
        list: &[Edge],
        table: &[u16],
        i: usize,
        living: &[u8],
        marks: &mut [u8],
    ) -> usize {
        let n = self.size;
        let edge = list[i];
        let guard = Marks {
            bytes: marks,
            size: n,
        };
        let edges = Edges {
            list,
            table,
            living,
            n,
        };
        edges.raise(edge.a as usize, guard.bytes, 0, 1);
        edges.raise(edge.b as usize, guard.bytes, 1, 2)
    }

    fn losers(
        &self,
        list: &[Edge],
        table: &[u16],
        x: usize,
        living: &[u8],
        marks: &mut [u8],
        out: &mut [u16],
    ) -> usize {
        let n = self.size;
        let guard = Marks {
            bytes: marks,
            size: n,
        };
        let edges = Edges {
            list,
            table,
            living,
            n,
        };
        edges.triangles(x, guard.bytes, out)
    }
}
