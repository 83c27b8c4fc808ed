//! The first plan: a greedy colouring, back through the removal order.
#![tactic(auto)]

ghost use Rattle.std.specs.Prelude.{◌≡◌, ℕ, ◌<◌, ◌≤◌, true, false, ◌⊎◌, length, drop, MatchResult, slice_index, slice_index_or};
ghost use Rattle.graph.specs.Graph.{held};
ghost use Rattle.colourings.specs.Theorems.{CliqueNeeds};
ghost use Rattle.degeneracy.specs.Order.{met, IsOrder};
ghost use Rattle.degeneracy.specs.Greedy.{IsPlan};
ghost use Rattle.plan.specs.Plan.{PlannedIn, PlanRefused, OnePlan};

use first_fit::lowest_free;
use graph::refusal::Refusal;
use graph::{Listed, Source};
use order::removal_order;

// At most 63 neighbours have a colour when a vertex gets its own, so the colours below 65 are enough.
const COLOURS: usize = 65;

/// How long the order is, the degeneracy, and how many different drives the plan uses.
#[derive(Clone, Copy, PartialEq, Eq, Debug)]
pub struct Planned {
    pub len: usize,
    pub degeneracy: usize,
    pub drives: usize,
}

/// An order has one plan, and a clique needs as many drives as it has members.
pub fn plans_stand()
    ensures one { OnePlan }
    ensures clique { CliqueNeeds }
{}

// Back through the order, gives each vertex the lowest colour that no neighbour has.
fn paint_back<S: Listed>(source: &S, order: &[u16], colours: &mut [u16])
    requires order { IsOrder (S.Source.graph source.now) order.now }
    requires few { (i : ℕ) → i < length order.now → met (S.Source.graph source.now) order.now i ≤ 63 }
    requires fits { (S.Source.graph source.now).size ≤ length colours.old }
    ensures plan { IsPlan (S.Source.graph source.now) order.now (λ c. slice_index colours.new c) }
    ensures rest { drop (S.Source.graph source.now).size colours.new ≡ drop (S.Source.graph source.now).size colours.old }
{
    colours[..source.size()].fill(0);
    for x in order.iter().rev() {
        let x = *x as usize;
        colours[x] = lowest_free::<S, COLOURS>(source, x, colours);
    }
}

// The highest of the colours, or 0.
fn highest(colours: &[u16]) -> usize
    ensures bound { (c : ℕ) → c < length colours.now → slice_index colours.now c ≤ result }
    ensures found { (result ≡ 0) ⊎ ((c : ℕ) × (c < length colours.now) × (slice_index colours.now c ≡ result)) }
{
    colours.iter().copied().max().unwrap_or(0) as usize
}

/// Orders the vertices, and gives each the lowest drive from 1 that no neighbour has, back through the order.
/// Refuses a buffer that is too short, and then a degeneracy above 63.
pub fn plan<S: Listed>(
    source: &S,
    order: &mut [u16],
    colours: &mut [u16],
) -> Result<Planned, Refusal>
    ensures { MatchResult result (λ p. PlannedIn (S.Source.graph source.now) order.old order.new colours.old colours.new p.len p.degeneracy p.drives × (p.degeneracy ≤ 63)) (λ x. PlanRefused (S.Source.graph source.now) (length order.old) (length colours.old) x × (order.new ≡ order.old) × (colours.new ≡ colours.old)) }
{
    let n = source.size();
    if colours.len() < n {
        return Err(Refusal::ShortBuffer);
    }
    let ordered = removal_order(source, order)?;
    let len = ordered.len;
    paint_back(source, &order[0..len], colours);
    let drives = highest(&colours[..n]);
    Ok(Planned {
        len,
        degeneracy: ordered.degeneracy,
        drives,
    })
}
