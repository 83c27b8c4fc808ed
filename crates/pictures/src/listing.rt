ghost use Rattle.std.specs.Prelude.{◌≡◌, ◌<◌, length, MatchResult};
ghost use Rattle.pictures.specs.Pictures.{Draws};

use crate::drawing::join_near;
use crate::shape::Picture;
use graph::Listed;
use graph::refusal::Refusal;
use stamps::Stamps;

// The picture that `draw` makes, from the neighbours of each chosen vertex. It is the quicker of the two where the source
// has its neighbours at hand.
pub fn draw_listed<S: Listed>(source: &S, chosen: &[u16]) -> Result<Picture, Refusal>
    ensures { MatchResult result (Draws (S.Source.graph source.now) chosen.now) (λ e. (e ≡ Refusal.TooLarge) × (64 < length chosen.now)) }
{
    if chosen.len() > 64 {
        return Err(Refusal::TooLarge);
    }
    let mut picture = Picture::blank(chosen.len());
    let mut stamps = Stamps::new();
    for (i, v) in chosen.iter().enumerate() {
        stamps.turn_to(source, *v as usize);
        join_near(&mut picture, chosen, i, |c| stamps.is_near(c));
    }
    Ok(picture)
}
