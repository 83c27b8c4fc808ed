ghost use Rattle.std.specs.Prelude.{◌≡◌, ℕ, ◌+◌, ◌<◌, ◌≤◌, List, [], ◌∷◌, ◌++◌, length, Some, None, MatchBool, MatchResult, slice_index, slice_set};
ghost use Rattle.graph.specs.declared.edge.Edge.{Edge as Pair};
ghost use Rattle.graph.specs.Edges.{edge};
ghost use Rattle.listing.specs.Listing.{row_length, start};
ghost use Rattle.tally.specs.Laid.{Laid, laying, Finished, Unfinished};

use super::Laying;
use graph::edge::Edge;
use graph::refusal::Refusal;
use sources::judge::judge;

impl Laying {
    // Writes b at the next place of row a, and a at that of row b.
    pub fn lay(&mut self, neighbours: &mut [u16], a: usize, b: usize) -> Result<(), Refusal>
        ensures { (n : ℕ) (es done : List Pair) → Laid n es done self.old → MatchResult result (λ _. (laying n es done (length neighbours.old) a b ≡ None) × Laid n es (done ++ edge a b ∷ []) self.new × (neighbours.new ≡ slice_set (slice_set neighbours.old (start es a + row_length done a) b) (start es b + row_length done b) a)) (λ x. (laying n es done (length neighbours.old) a b ≡ Some x) × (self.new ≡ self.old) × (neighbours.new ≡ neighbours.old)) }
    {
        if neighbours.len() < self.clashes + self.clashes {
            return Err(Refusal::ShortBuffer);
        }
        if a >= self.n || b >= self.n {
            return Err(Refusal::OutOfRange);
        }
        let e = Edge {
            a: a as u16,
            b: b as u16,
        };
        if a >= b || !e.is_above(self.previous) {
            return Err(Refusal::Unordered);
        }
        if self.left[a] == 0 || self.left[b] == 0 {
            return Err(Refusal::Miscounted);
        }
        neighbours[self.next[a] as usize] = b as u16;
        neighbours[self.next[b] as usize] = a as u16;
        self.next[a] += 1;
        self.next[b] += 1;
        self.left[a] -= 1;
        self.left[b] -= 1;
        self.previous = Some(e);
        Ok(())
    }

    // Whether no row has a place left.
    fn all_laid(&self) -> bool
        ensures { MatchBool result ((c : ℕ) → c < self.now.n → slice_index self.now.left c ≡ 0) ((c : ℕ) × (c < self.now.n) × (0 < slice_index self.now.left c)) }
    {
        self.left[..self.n].iter().all(|left| *left == 0)
    }

    // Where each row begins and the last one ends, once every row is full.
    fn offsets(&self) -> [u16; 1025]
        ensures len { length result ≡ 1025 }
        ensures first { slice_index result 0 ≡ 0 }
        ensures places { (c : ℕ) → c < self.now.n → slice_index result (c + 1) ≡ slice_index self.now.next c }
    {
        let mut table = [0u16; 1025];
        table[1..].copy_from_slice(&self.next);
        table
    }

    // Writes where each row begins, once every clash is laid.
    pub fn finish(&self, neighbours: &[u16], offsets: &mut [u16]) -> Result<(), Refusal>
        ensures { (n : ℕ) (es done : List Pair) → Laid n es done self.now → MatchResult result (λ _. Finished n es done neighbours.now offsets.old offsets.new) (λ x. Unfinished n es done neighbours.now (length offsets.old) x × (offsets.new ≡ offsets.old)) }
    {
        let count = self.n + 1;
        let used = self.clashes + self.clashes;
        if offsets.len() < count || neighbours.len() < used {
            return Err(Refusal::ShortBuffer);
        }
        if !self.all_laid() {
            return Err(Refusal::Miscounted);
        }
        let table = self.offsets();
        judge(&table[..count], &neighbours[..used])?;
        offsets[..count].copy_from_slice(&table[..count]);
        Ok(())
    }
}
