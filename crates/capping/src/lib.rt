//! A bound on the cliques of a graph: the smaller of degeneracy + 1 and community number + 2.
#![tactic(auto)]

ghost use Rattle.std.specs.Prelude.{◌≡◌, length, MatchResult};
ghost use Rattle.caps.specs.Cap.{CappedIn, CapFits, CapRefused};

use communities::Below;
use edges::{edge_total, write_edges};
use graph::edge::Edge;
use graph::refusal::Refusal;
use graph::{Listed, Source};
use order::degeneracy;
use peeling::{MOST, deepest};

mod edges;

// Whether the edges and vertices fit buffers of these lengths.
fn check<S: Listed>(source: &S, clashes: usize, living: usize, marks: usize) -> Result<(), Refusal>
    ensures { MatchResult result (λ _. CapFits (S.Source.graph source.now) clashes living marks) (CapRefused (S.Source.graph source.now) clashes living marks) }
{
    let m = edge_total(source);
    if m > MOST {
        return Err(Refusal::TooLarge);
    }
    if clashes < m || living < m || marks < source.size() {
        return Err(Refusal::ShortBuffer);
    }
    Ok(())
}

/// The bound on the cliques of a graph: 0 without vertices, 1 without edges, else the smaller of degeneracy + 1 and
/// community number + 2. Lists all edges in `clashes`, writes 1 in `living` at those of the last community and 0 at
/// the others, and leaves the first n marks 0. Refuses more than 16,384 edges, and then a buffer that is too short.
pub fn cap<S: Listed>(
    source: &S,
    clashes: &mut [Edge],
    living: &mut [u8],
    marks: &mut [u8],
) -> Result<usize, Refusal>
    ensures cases { MatchResult result (λ top. CappedIn (S.Source.graph source.now) clashes.old clashes.new living.old living.new marks.old marks.new top) (λ _. (clashes.new ≡ clashes.old) × (living.new ≡ living.old) × (marks.new ≡ marks.old)) }
    ensures refused { MatchResult result (λ _. CapFits (S.Source.graph source.now) (length clashes.old) (length living.old) (length marks.old)) (λ x. CapRefused (S.Source.graph source.now) (length clashes.old) (length living.old) (length marks.old) x) }
{
    check(source, clashes.len(), living.len(), marks.len())?;
    let n = source.size();
    let m = write_edges(source, clashes);
    marks[..n].fill(0);
    let found = degeneracy(source);
    if found.len == 0 {
        return Ok(0);
    }
    if m == 0 {
        return Ok(1);
    }
    living[..m].fill(1);
    let pool = Below { size: n };
    let number = deepest(&pool, &clashes[0..m], living, marks)?;
    Ok((found.degeneracy + 1).min(number + 2))
}
