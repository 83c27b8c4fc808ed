ghost use Rattle.std.specs.Prelude.{◌≡◌, ℕ, ◌+◌, ◌<◌, ◌≤◌, Bool, false, length, MatchResult, slice_index};
ghost use Rattle.grids.specs.Draws.{Drawn};
ghost use Rattle.pictures.specs.Pictures.{Draws, joined, places};

use crate::shape::Picture;
use graph::Source;
use graph::refusal::Refusal;

// The picture of the chosen vertices of a source: place `i` is for the `i`-th of them.
// Refused if there are more than 64.
pub fn draw<S: Source>(source: &S, chosen: &[u16]) -> Result<Picture, Refusal>
    ensures { MatchResult result (Draws (S.Source.graph source.now) chosen.now) (λ e. (e ≡ Refusal.TooLarge) × (64 < length chosen.now)) }
{
    if chosen.len() > 64 {
        return Err(Refusal::TooLarge);
    }
    let mut picture = Picture::blank(chosen.len());
    for (i, v) in chosen.iter().enumerate() {
        join_near(&mut picture, chosen, i, |c| source.clashes(*v as usize, c));
    }
    Ok(picture)
}

// Joins place `i` with the places below it whose vertices are near.
pub(crate) fn join_near<F: Fn(usize) -> bool>(
    picture: &mut Picture,
    chosen: &[u16],
    i: usize,
    near: F,
)
    requires within { i < length chosen.now }
    requires size { places picture.old ≡ length chosen.now }
    requires callable { F.IsAlwaysCallable near }
    ensures size { places picture.new ≡ places picture.old }
    ensures drawn { (e : ℕ → ℕ → Bool) → ((a b : ℕ) → e a b ≡ e b a) → ((a : ℕ) → e a a ≡ false) → ((j : ℕ) (r : Bool) → j < i → F.post near (slice_index chosen.now j) r → r ≡ e i j) → Drawn e (joined picture.old) i 0 → Drawn e (joined picture.new) (i + 1) 0 }
{
    for (j, u) in chosen[..i].iter().enumerate() {
        if near(*u as usize) {
            picture.join(i, j);
        }
    }
}
