// The climb from lists of neighbours: all steps at once, with one picture for the last 64 vertices of the order.
#![tactic(auto)]

ghost use Rattle.std.specs.Prelude.{◌≡◌, ℕ, ◌≤◌, true, is_ok, MatchResult};
ghost use Rattle.climbing.specs.Climbs.{BlockIn, ClimbRefused, EachOnce, FewLater, Reaches};
ghost use Rattle.degeneracy.specs.Order.{IsOrder, IsPeak};
ghost use Rattle.graph.specs.Graph.{held};

use bounds::Bound;
use branching::largest;
use climb::steps::climb_before;
use graph::Listed;
use graph::refusal::Refusal;
use pictures::Picture;

mod listed;
mod tail;

use listed::ListedTerrain;
use tail::climb_tail;

// A largest clique inside `mask`, if it has `len` members or more.
// By hand: `climb` has the same lines around the search that asks the bound alone.
fn at_least<B: Bound>(bound: &B, p: &Picture, mask: u64, len: usize) -> Option<u64>
    ensures { Reaches p.now mask len result }
{
    let found = largest(bound, p, mask, len.saturating_sub(1));
    if len == 0 { found.or(Some(0)) } else { found }
}

// All steps, from the end of the order to its start, the last 64 of them in one picture: the block becomes a largest clique
// of the graph, if the order contains each vertex once. Answers how many members it has. Refuses where a vertex has more
// than 63 neighbours later in the order.
pub fn climb_all<S: Listed, B: Bound>(
    source: &S,
    bound: &B,
    order: &[u16],
    block: &mut [u16; 64],
) -> Result<usize, Refusal>
    ensures cases { MatchResult result (λ b. (b ≤ 64) × FewLater (S.Source.graph source.now) order.now 0 × (EachOnce (S.Source.graph source.now) order.now → BlockIn (S.Source.graph source.now) (held (S.Source.graph source.now)) block.new b)) (λ x. ClimbRefused (S.Source.graph source.now) order.now x × (block.new ≡ block.old)) }
    ensures succeeds { (m : ℕ) → IsOrder (S.Source.graph source.now) order.now → IsPeak (S.Source.graph source.now) order.now m → m ≤ 63 → is_ok result ≡ true }
{
    let start = order.len().saturating_sub(64);
    let mut best = [0u16; 64];
    let tail = climb_tail(source, bound, order, start, &mut best);
    let terrain = ListedTerrain { source, bound };
    let len = climb_before(&terrain, order, start, &mut best, tail)?;
    *block = best;
    Ok(len)
}
