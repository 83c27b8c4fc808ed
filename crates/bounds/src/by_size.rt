ghost use Rattle.finite.specs.Finite.{count};
ghost use Rattle.finite.specs.Masks.{bit};
ghost use Rattle.pictures.specs.Pictures.{places};
ghost use Rattle.std.specs.Prelude.{◌&&◌, nat_lt};
ghost use Rattle.finite.proofs.Counts.{count_mono};
ghost use Rattle.std.proofs.lemmas.Bool.{and_from, lt-ltb};

use crate::bound::Bound;
use masks::{below, meet, size};
use pictures::Picture;

// How many places of the picture the mask has.
#[derive(Clone, Copy)]
pub struct SizeBound {}

impl Bound for SizeBound {
    ghost answer = { λ _ p m. count (λ i. bit m i && nat_lt i (places p)) 64 };

    ghost sound = { λ s p m K h k. count_mono K _ 64 (λ i _ t. and_from _ _ (k.inside i t) (lt-ltb _ _ (k.placed i t))) };

    fn bound(&self, p: &Picture, mask: u64) -> u32 {
        size(meet(mask, below(p.count())))
    }
}
