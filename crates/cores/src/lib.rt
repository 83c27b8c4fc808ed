//! The cores of a graph.
#![tactic(auto)]

ghost use Rattle.std.specs.Prelude.{◌≡◌, ℕ, ◌<◌, ◌≤◌, true, false, length, if◌then◌else◌, MatchResult, nat_lt, slice_index};
ghost use Rattle.graph.specs.Graph.{held};
ghost use Rattle.cores.specs.Cores.{CoreIn, CoreRefused};

use graph::refusal::Refusal;
use graph::{Listed, Source};
use items::vertices::Vertex;
use peeling::peel;

mod living;

pub use living::list_living;

// Writes 1 at each vertex, and 0 at each other number below n.
fn fill_held<S: Source>(source: &S, living: &mut [u8])
    requires { (S.Source.graph source.now).size ≤ length living.old }
    ensures { (c : ℕ) → slice_index living.new c ≡ (if nat_lt c (S.Source.graph source.now).size then (if held (S.Source.graph source.now) c then 1 else 0) else slice_index living.old c) }
{
    for c in 0..source.size() {
        // By hand: the number is asked of the source too.
        living[c] = u8::from(source.holds(c));
    }
}

/// The core of the graph at `least`: takes out vertices with fewer living neighbours until there is none. The bytes
/// of those that stay are 1; those taken out stand in `taken`, in their order. Returns how many were taken out.
pub fn core<S: Listed>(
    source: &S,
    least: usize,
    living: &mut [u8],
    taken: &mut [u16],
) -> Result<usize, Refusal>
    ensures { MatchResult result (λ len. CoreIn (S.Source.graph source.now) least living.old living.new taken.old taken.new len) (λ x. CoreRefused (S.Source.graph source.now) (length living.old) (length taken.old) x × (living.new ≡ living.old) × (taken.new ≡ taken.old)) }
{
    let n = source.size();
    if living.len() < n || taken.len() < n {
        return Err(Refusal::ShortBuffer);
    }
    fill_held(source, living);
    let list: [Vertex; 0] = [];
    let mut marks = [0u8; 0];
    let len = peel(source, &list, least, living, &mut marks, taken)?;
    Ok(len)
}
