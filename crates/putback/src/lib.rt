//! Colours for the vertices that were taken out.
#![tactic(auto)]

ghost use Rattle.std.specs.Prelude.{◌≡◌, ℕ, ◌<◌, ◌≤◌, true, false, length, MatchResult, slice_index, slice_index_or};
ghost use Rattle.degeneracy.specs.Greedy.{Lowest};
ghost use Rattle.finite.specs.Finite.{has};
ghost use Rattle.graph.specs.Graph.{held};
ghost use Rattle.putback.specs.Backs.{AllBelow, BackIn, BackRefused, Laid, LayRefused};

use first_fit::lowest_free;
use graph::refusal::Refusal;
use graph::{Listed, Source};

// No vertex has more than 1,023 neighbours, so the colours below 1026 are enough.
const COLOURS: usize = 1026;

// Whether every number of the list is below n.
fn all_below(list: &[u16], n: usize) -> bool
    ensures { AllBelow list.now n result }
{
    list.iter().all(|x| (*x as usize) < n)
}

// Takes the colours from the vertices of the list.
fn clear(list: &[u16], colours: &mut [u16])
    requires { (i : ℕ) → i < length list.now → slice_index list.now i < length colours.old }
    ensures cleared { (i : ℕ) → i < length list.now → slice_index colours.new (slice_index list.now i) ≡ 0 }
    ensures keeps { (c : ℕ) → has list.now c ≡ false → slice_index colours.new c ≡ slice_index colours.old c }
{
    for x in list {
        colours[*x as usize] = 0;
    }
}

// Last taken first, gives each vertex of the list the lowest colour that no coloured neighbour has.
fn paint_back<S: Listed>(source: &S, list: &[u16], colours: &mut [u16])
    requires room { (S.Source.graph source.now).size ≤ length colours.old }
    requires listed { (i : ℕ) → i < length list.now → slice_index list.now i < (S.Source.graph source.now).size }
    ensures { BackIn (S.Source.graph source.now) list.now colours.old colours.new }
{
    clear(list, colours);
    for x in list.iter().rev() {
        let x = *x as usize;
        colours[x] = lowest_free::<S, COLOURS>(source, x, colours);
    }
}

/// Gives each vertex that was taken out the lowest drive from 1 that no neighbour has, last taken first.
/// Refuses colours that are too few, and then a number that is out of range.
pub fn put_back<S: Listed>(source: &S, taken: &[u16], colours: &mut [u16]) -> Result<(), Refusal>
    ensures { MatchResult result (λ _. BackIn (S.Source.graph source.now) taken.now colours.old colours.new) (λ x. BackRefused (S.Source.graph source.now).size taken.now (length colours.old) x × (colours.new ≡ colours.old)) }
{
    let n = source.size();
    if colours.len() < n {
        return Err(Refusal::ShortBuffer);
    }
    if !all_below(taken, n) {
        return Err(Refusal::OutOfRange);
    }
    paint_back(source, taken, colours);
    Ok(())
}

// Gives each number of the list the drive at its place.
fn spread(list: &[u16], drives: &[u16], colours: &mut [u16])
    requires long { length list.now ≤ length drives.now }
    requires listed { (i : ℕ) → i < length list.now → slice_index list.now i < length colours.old }
    ensures { Laid list.now drives.now colours.old colours.new }
{
    for (x, drive) in list.iter().zip(drives) {
        colours[*x as usize] = *drive;
    }
}

/// Gives each vertex of the kernel the drive that was found at its place.
/// Refuses drives that are too few, and then a number that has no place among the colours.
pub fn lay(kernel: &[u16], drives: &[u16], colours: &mut [u16]) -> Result<(), Refusal>
    ensures { MatchResult result (λ _. Laid kernel.now drives.now colours.old colours.new) (λ x. LayRefused kernel.now (length drives.now) (length colours.old) x × (colours.new ≡ colours.old)) }
{
    if drives.len() < kernel.len() {
        return Err(Refusal::ShortBuffer);
    }
    if !all_below(kernel, colours.len()) {
        return Err(Refusal::OutOfRange);
    }
    spread(kernel, drives, colours);
    Ok(())
}
