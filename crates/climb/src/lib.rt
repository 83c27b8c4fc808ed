// The climb: a largest clique of a graph, vertex by vertex from the end of an order.
#![tactic(auto)]

ghost use Rattle.std.specs.Prelude.{◌≡◌, ℕ, ◌<◌, ◌≤◌, true, length, is_ok, MatchResult};
ghost use Rattle.climbing.specs.Climbs.{BlockIn, ClimbRefused, Climbs, EachOnce, FewLater, StepRefused};
ghost use Rattle.degeneracy.specs.Order.{IsOrder, IsPeak};
ghost use Rattle.graph.specs.Graph.{held};

use bounds::Bound;
use graph::Source;
use graph::refusal::Refusal;

mod asked;
pub mod blocks;
pub mod gathering;
pub mod steps;
pub mod terrain;

use asked::AskedTerrain;
use steps::{climb_before, step};

// The most later neighbours that a step takes.
pub const MOST_LATER: usize = 63;

// The vertex at `at` is added to those that come after it in the order: the block, of `len` members, becomes a largest
// clique of them all, and is replaced only by a larger one. Answers how many members it has then.
// Refuses where there is no place `at`, and then where the vertex has more than 63 neighbours later in the order.
pub fn climb_step<S: Source, B: Bound>(
    source: &S,
    bound: &B,
    order: &[u16],
    at: usize,
    block: &mut [u16; 64],
    len: usize,
) -> Result<usize, Refusal>
    ensures cases { MatchResult result (λ b. Climbs (S.Source.graph source.now) order.now at block.old block.new len b) (λ x. StepRefused (S.Source.graph source.now) order.now at x × (block.new ≡ block.old)) }
    ensures succeeds { (m : ℕ) → IsOrder (S.Source.graph source.now) order.now → IsPeak (S.Source.graph source.now) order.now m → m ≤ 63 → at < length order.now → is_ok result ≡ true }
{
    step(&AskedTerrain { source, bound }, order, at, block, len)
}

// All steps, from the end of the order to its start: the block becomes a largest clique of the graph, if the order
// contains each vertex once. Answers how many members it has. Refuses where a vertex has more than 63 neighbours later in
// the order.
pub fn climb_all<S: Source, B: Bound>(
    source: &S,
    bound: &B,
    order: &[u16],
    block: &mut [u16; 64],
) -> Result<usize, Refusal>
    ensures cases { MatchResult result (λ b. (b ≤ 64) × FewLater (S.Source.graph source.now) order.now 0 × (EachOnce (S.Source.graph source.now) order.now → BlockIn (S.Source.graph source.now) (held (S.Source.graph source.now)) block.new b)) (λ x. ClimbRefused (S.Source.graph source.now) order.now x × (block.new ≡ block.old)) }
    ensures succeeds { (m : ℕ) → IsOrder (S.Source.graph source.now) order.now → IsPeak (S.Source.graph source.now) order.now m → m ≤ 63 → is_ok result ≡ true }
{
    let mut best = [0u16; 64];
    let terrain = AskedTerrain { source, bound };
    let len = climb_before(&terrain, order, order.len(), &mut best, 0)?;
    *block = best;
    Ok(len)
}
