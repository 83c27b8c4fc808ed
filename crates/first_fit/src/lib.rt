//! The lowest colour that no neighbour has.
#![tactic(auto)]

ghost use Rattle.std.specs.Prelude.{◌≡◌, ℕ, ◌+◌, ◌<◌, ◌≤◌, true, false, length, slice_index, slice_index_or};
ghost use Rattle.graph.specs.Graph.{held};
ghost use Rattle.degeneracy.specs.Greedy.{Lowest, coloured_near};
ghost use Rattle.first_fit.specs.Marks.{Marked};

use graph::Listed;
use graph::neighbours::Neighbours;

// Marks the colours below N of the neighbours of x.
fn taken_near<S: Listed, const N: usize>(source: &S, x: usize, colours: &[u16]) -> [bool; N]
    requires { (S.Source.graph source.now).size ≤ length colours.now }
    ensures { Marked (S.Source.graph source.now) x colours.now N result }
{
    let mut taken = [false; N];
    for b in Neighbours::of(source, x) {
        let colour = colours[b] as usize;
        if colour < N {
            taken[colour] = true;
        }
    }
    taken
}

// The first colour from 1 that is not marked, or their number.
fn first_free(taken: &[bool]) -> usize
    requires { 1 ≤ length taken.now }
    ensures low_bound { 1 ≤ result }
    ensures high_bound { result ≤ length taken.now }
    ensures before { (j : ℕ) → 1 ≤ j → j < result → slice_index_or taken.now j false ≡ true }
    ensures found { result < length taken.now → slice_index_or taken.now result false ≡ false }
{
    (1..taken.len()).find(|k| !taken[*k]).unwrap_or(taken.len())
}

/// The lowest colour from 1 that no neighbour of x has, where at most N - 2 neighbours have a colour.
pub fn lowest_free<S: Listed, const N: usize>(source: &S, x: usize, colours: &[u16]) -> u16
    requires fits { (S.Source.graph source.now).size ≤ length colours.now }
    requires small { N ≤ 65536 }
    requires few { coloured_near (S.Source.graph source.now) colours.now x + 2 ≤ N }
    ensures value { Lowest (S.Source.graph source.now) (held (S.Source.graph source.now)) (λ c. slice_index colours.now c) x result }
    ensures bound { result < N }
{
    let taken = taken_near::<S, N>(source, x, colours);
    first_free(&taken) as u16
}
