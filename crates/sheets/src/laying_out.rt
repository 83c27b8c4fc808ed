ghost use Rattle.std.specs.Prelude.{◌≡◌, ℕ, ◌+◌, ◌≤◌, [], length, MatchResult, slice_index};
ghost use Rattle.graph.specs.Edges.{Good};
ghost use Rattle.listing.specs.Listing.{LaidRows};
ghost use Rattle.tally.specs.Counted.{Counted};
ghost use Rattle.tally.specs.Laid.{Laid};
ghost use Rattle.sheets.specs.Into.{LaidInto};

use graph::edge::Edge;
use graph::refusal::Refusal;
use tally::{Laying, Tally, Totals};

// Counts the edges; those of a stock are never refused.
fn tally_all(n: usize, edges: &[Edge]) -> Result<Tally, Refusal>
    ensures { Good n edges.now → MatchResult result (λ t. Counted n edges.now t) (λ _. ⊥) }
{
    let mut tally = Tally::empty();
    tally.open(n)?;
    for e in edges {
        tally.count(e.a as usize, e.b as usize)?;
    }
    Ok(tally)
}

// Lays the edges that were counted; where there is room for them, none is refused.
fn lay_all(laying: &mut Laying, edges: &[Edge], neighbours: &mut [u16]) -> Result<(), Refusal>
    ensures { (n : ℕ) → Good n edges.now → Laid n edges.now [] laying.old → length edges.now + length edges.now ≤ length neighbours.old → MatchResult result (λ _. Laid n edges.now edges.now laying.new × LaidRows n edges.now edges.now neighbours.new × ((k : ℕ) → length edges.now + length edges.now ≤ k → slice_index neighbours.new k ≡ slice_index neighbours.old k)) (λ _. ⊥) }
{
    for e in edges {
        laying.lay(neighbours, e.a as usize, e.b as usize)?;
    }
    Ok(())
}

// Writes the list form of a stock of edges; where there is room for it, nothing is refused.
pub(crate) fn lay_out(
    n: usize,
    edges: &[Edge],
    offsets: &mut [u16],
    neighbours: &mut [u16],
) -> Result<(), Refusal>
    ensures { Good n edges.now → n + 1 ≤ length offsets.old → length edges.now + length edges.now ≤ length neighbours.old → MatchResult result (λ _. LaidInto n edges.now offsets.old offsets.new neighbours.old neighbours.new) (λ _. ⊥) }
{
    let Totals {
        n: _,
        clashes: _,
        mut laying,
    } = tally_all(n, edges)?.totals();
    lay_all(&mut laying, edges, neighbours)?;
    laying.finish(neighbours, offsets)?;
    Ok(())
}
