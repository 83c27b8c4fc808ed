ghost use Rattle.std.specs.Prelude.{◌≡◌, ℕ, ◌<◌, ◌≤◌, length, MatchResult};
ghost use Rattle.kernels.specs.Kernels.{Draws, paired, places};
ghost use Rattle.placings.specs.Rows.{marked};

use super::Kernel;
use graph::Source;
use graph::refusal::Refusal;
use masks::with;

// Row `i`: the places whose vertices clash with the `i`-th.
fn row_of<S: Source>(source: &S, chosen: &[u16], i: usize) -> [u64; 4]
    requires within { i < length chosen.now }
    requires few { length chosen.now ≤ 256 }
    ensures { (j : ℕ) → j < length chosen.now → marked result j ≡ paired (S.Source.graph source.now) chosen.now i j }
{
    let mut row = [0u64; 4];
    for (j, c) in chosen.iter().enumerate() {
        if source.clashes(chosen[i] as usize, *c as usize) {
            row[j / 64] = with(row[j / 64], j % 64);
        }
    }
    row
}

impl Kernel {
    /// The kernel without places.
    pub fn empty() -> Self
        ensures { places result ≡ 0 }
    {
        Kernel {
            count: 0,
            rows: [[0; 4]; 256],
        }
    }

    /// Draws the vertices of the list, place `i` the `i`-th: places are joined where the vertices clash.
    /// Refused where there are more than 256, and then nothing has changed.
    pub fn draw<S: Source>(&mut self, source: &S, chosen: &[u16]) -> Result<(), Refusal>
        ensures { MatchResult result (λ _. (length chosen.now ≤ 256) × Draws (S.Source.graph source.now) chosen.now self.new) (λ x. (x ≡ Refusal.TooWide) × (256 < length chosen.now) × (self.new ≡ self.old)) }
    {
        let count = chosen.len();
        if count > 256 {
            return Err(Refusal::TooWide);
        }
        let mut rows = [[0u64; 4]; 256];
        for (i, row) in rows[..count].iter_mut().enumerate() {
            *row = row_of(source, chosen, i);
        }
        *self = Kernel { count, rows };
        Ok(())
    }
}
