use crate::MOST_LATER;
use crate::gathering::gather;
use crate::terrain::Terrain;
use arrayvec::ArrayVec;
use bounds::Bound;
use cliques::largest;
use graph::Source;
use masks::below;
use pictures::draw;

// A source that is asked for each pair.
#[derive(Drop)]
pub(crate) struct AskedTerrain<'a, S, B> {
    pub(crate) source: &'a S,
    pub(crate) bound: &'a B,
}

impl<'a, S: Source, B: Bound> Terrain for AskedTerrain<'a, S, B> {
    ghost graph = { λ s. S.Source.graph s.source.now };

    ghost lawful = { λ s. S.Source.lawful s.source.now };

    fn size(&self) -> usize {
        self.source.size()
    }

    fn later(&self, order: &[u16], at: usize) -> Option<ArrayVec<u16, MOST_LATER>> {
        let v = order[at] as usize;
        gather(&order[at + 1..], |c| self.source.clashes(v, c))
    }

    fn reaching(&self, chosen: &[u16], len: usize) -> Option<u64> {
        let picture = draw(self.source, chosen).unwrap();
        let found = largest(
            self.bound,
            &picture,
            below(chosen.len()),
            len.saturating_sub(1),
        );
        if len == 0 { found.or(Some(0)) } else { found }
    }
}
