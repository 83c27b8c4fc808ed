ghost use Rattle.std.specs.Prelude.{◌≡◌, ℕ, ◌-◌, ◌<◌, ◌≤◌, true, length, is_ok, MatchResult};
ghost use Rattle.climbing.specs.Climbs.{BlockIn, ClimbRefused, Climbs, EachOnce, FewLater, StepRefused, last};
ghost use Rattle.degeneracy.specs.Order.{IsOrder, IsPeak};
ghost use Rattle.graph.specs.Graph.{held};

use crate::blocks::{mark, picked_table, write_block};
use crate::terrain::Terrain;
use graph::refusal::Refusal;

// A step of the climb: `climb_step` says what it does.
pub fn step<T: Terrain>(
    terrain: &T,
    order: &[u16],
    at: usize,
    block: &mut [u16; 64],
    len: usize,
) -> Result<usize, Refusal>
    ensures cases { MatchResult result (λ b. Climbs (T.Terrain.graph terrain.now) order.now at block.old block.new len b) (λ x. StepRefused (T.Terrain.graph terrain.now) order.now at x × (block.new ≡ block.old)) }
    ensures succeeds { (m : ℕ) → IsOrder (T.Terrain.graph terrain.now) order.now → IsPeak (T.Terrain.graph terrain.now) order.now m → m ≤ 63 → at < length order.now → is_ok result ≡ true }
{
    if at >= order.len() {
        return Err(Refusal::OutOfRange);
    }
    let Some(later) = terrain.later(order, at) else {
        return Err(Refusal::TooDense);
    };
    if later.len() < len {
        return Ok(len);
    }
    match terrain.reaching(&later, len) {
        Some(mask) => {
            let mut members = picked_table(&later, mask);
            mark(&mut members, order[at] as usize);
            Ok(write_block(block, terrain.size(), &members))
        }
        None => Ok(len),
    }
}

// The steps at the places below `start`, from the last of them on, where the block is a largest clique of the others.
// Answers how many members it has. Refuses where a vertex has more than 63 neighbours later in the order.
pub fn climb_before<T: Terrain>(
    terrain: &T,
    order: &[u16],
    start: usize,
    block: &mut [u16; 64],
    mut len: usize,
) -> Result<usize, Refusal>
    requires within { start ≤ length order.now }
    requires bound { len ≤ 64 }
    requires few { FewLater (T.Terrain.graph terrain.now) order.now start }
    requires block { EachOnce (T.Terrain.graph terrain.now) order.now → BlockIn (T.Terrain.graph terrain.now) (last order.now (length order.now - start)) block.old len }
    ensures cases { MatchResult result (λ b. (b ≤ 64) × FewLater (T.Terrain.graph terrain.now) order.now 0 × (EachOnce (T.Terrain.graph terrain.now) order.now → BlockIn (T.Terrain.graph terrain.now) (held (T.Terrain.graph terrain.now)) block.new b)) (λ x. ClimbRefused (T.Terrain.graph terrain.now) order.now x) }
    ensures succeeds { (m : ℕ) → IsOrder (T.Terrain.graph terrain.now) order.now → IsPeak (T.Terrain.graph terrain.now) order.now m → m ≤ 63 → is_ok result ≡ true }
{
    for at in (0..start).rev() {
        len = step(terrain, order, at, block, len)?;
    }
    Ok(len)
}
