// The vertices of a graph as items.
ghost use Rattle.graph.specs.Graph.{inside};
ghost use Rattle.graph.proofs.Graphs.{inside_mono};

use super::Peeled;
use graph::neighbours::Neighbours;
use graph::{Listed, Source};

/// The kind of item that a vertex is: a source gives the vertices itself, so the list beside it is empty.
#[derive(Clone, Copy)]
pub struct Vertex;

/// The vertices of a source as items: the support of a vertex is how many living neighbours it has.
impl<S: Listed> Peeled<Vertex> for S {
    ghost items = { λ s _. (S.Source.graph s).size };

    ghost room = { λ _ _. 0 };

    ghost support = { λ s _. inside (S.Source.graph s) };

    ghost proper = { λ _ _. Unit {0} };

    ghost indexed = { λ _ _ _. Unit {0} };

    ghost falls = { λ x list s t c f. inside_mono (S.Source.graph x) s t c f };

    fn item_count(&self, _list: &[Vertex]) -> usize {
        self.size()
    }

    fn mark_count(&self, _list: &[Vertex]) -> usize {
        0
    }

    fn index(&self, _list: &[Vertex], _table: &mut [u16]) -> bool {
        true
    }

    fn support_of(
        &self,
        _list: &[Vertex],
        _table: &[u16],
        i: usize,
        living: &[u8],
        _marks: &mut [u8],
    ) -> usize {
        Neighbours::of(self, i).filter(|b| living[*b] == 1).count()
    }

    fn losers(
        &self,
        _list: &[Vertex],
        _table: &[u16],
        x: usize,
        living: &[u8],
        _marks: &mut [u8],
        out: &mut [u16],
    ) -> usize {
        let mut len = 0;
        for b in Neighbours::of(self, x) {
            if living[b] == 1 {
                // By hand: the buffer is the caller's, and only its front is written.
                out[len] = b as u16;
                len += 1;
            }
        }
        len
    }
}
