// The two-part bound.
#![tactic(auto)]

ghost use Rattle.std.specs.Prelude.{ℕ};
ghost use Rattle.grids.specs.Largest.{IsLargest};
ghost use Rattle.pictures.specs.declared.shape.Picture.{Picture as Drawing};
ghost use Rattle.two_part.specs.TwoPart.{lower_part, part_reaching, two_part, upper_part};
ghost use Rattle.two_part.specs.Sound.{two_part_sound};

use bounds::Bound;
use masks::{below, meet, minus};
use pictures::Picture;

mod pairing;
mod parts;

use pairing::largest;
use parts::tops;

// The largest sum of sizes that cliques across two halves of the picture may have, by the bound below.
#[derive(Clone, Copy)]
pub struct TwoPartBound<B>(pub B);

impl<B: Bound> Bound for TwoPartBound<B> {
    ghost answer = { λ s p m. two_part (B.Bound.answer s.0) p m };

    ghost sound = { λ s p m K h k. two_part_sound (B.Bound.answer s.0) (B.Bound.sound s.0) p m K k };

    fn bound(&self, p: &Picture, mask: u64) -> u32 {
        let half = below(p.count() / 2);
        let u = meet(mask, half);
        let w = minus(meet(mask, below(p.count())), half);
        let in_u = tops(&self.0, p, u, w);
        let in_w = tops(&self.0, p, w, u);
        largest(&in_u, &in_w) as u32
    }
}

// The answer is the largest r + s of all pairs that qualify.
pub fn two_part_stands()
    ensures { (answer : Drawing → ℕ → ℕ) (p : Drawing) (m : ℕ) → IsLargest (part_reaching answer p (lower_part p m) (upper_part p m)) (part_reaching answer p (upper_part p m) (lower_part p m)) (two_part answer p m) }
{}
