use crate::at_least;
use arrayvec::ArrayVec;
use bounds::Bound;
use climb::MOST_LATER;
use climb::gathering::gather;
use climb::terrain::Terrain;
use graph::Listed;
use masks::below;
use pictures::draw_listed;
use stamps::Stamps;

// A source that gives the neighbours of each vertex.
#[derive(Drop)]
pub(crate) struct ListedTerrain<'a, S, B> {
    pub(crate) source: &'a S,
    pub(crate) bound: &'a B,
}

impl<'a, S: Listed, B: Bound> Terrain for ListedTerrain<'a, S, B> {
    ghost graph = { λ s. S.Source.graph s.source.now };

    ghost lawful = { λ s. S.Source.lawful s.source.now };

    fn size(&self) -> usize {
        self.source.size()
    }

    fn later(&self, order: &[u16], at: usize) -> Option<ArrayVec<u16, MOST_LATER>> {
        let mut stamps = Stamps::new();
        stamps.turn_to(self.source, order[at] as usize);
        gather(&order[at + 1..], |c| stamps.is_near(c))
    }

    fn reaching(&self, chosen: &[u16], len: usize) -> Option<u64> {
        let picture = draw_listed(self.source, chosen).unwrap();
        at_least(self.bound, &picture, below(chosen.len()), len)
    }
}
