ghost use Rattle.std.specs.Prelude.{◌≡◌, ◌≤◌};
ghost use Rattle.graph.specs.Graph.{degree};
ghost use Rattle.graph.specs.Neighbours.{Steps, left};
ghost use Rattle.std.specs.Iterator.{at_most};

use crate::{Listed, Source};

// The neighbours of a vertex, rising.
#[derive(Drop)]
pub struct Neighbours<'a, S: Listed> {
    source: &'a S,
    vertex: usize,
    passed: usize,
    ghost within: { passed ≤ degree (S.Source.graph source.now) vertex },
}

impl<'a, S: Listed> Neighbours<'a, S> {
    // The neighbours of `c` in the source.
    pub fn of(source: &'a S, c: usize) -> Self
        ensures source { S.Source.graph result.source.now ≡ S.Source.graph source.now }
        ensures vertex { result.vertex ≡ c }
        ensures start { result.passed ≡ 0 }
    {
        Neighbours {
            source,
            vertex: c,
            passed: 0,
        }
    }
}

impl<'a, S: Listed> Iterator for Neighbours<'a, S> {
    type Item = usize;

    ghost next_gives = { λ s r t. (S.Source.graph t.source.now ≡ S.Source.graph s.source.now) × (t.vertex ≡ s.vertex) × Steps (S.Source.graph s.source.now) s.vertex s.passed r t.passed };

    ghost remaining = { λ s. at_most (left (S.Source.graph s.source.now) s.vertex s.passed) };

    fn next(&mut self) -> Option<usize> {
        let b = self.source.neighbour(self.vertex, self.passed)?;
        self.passed += 1;
        Some(b)
    }
}
