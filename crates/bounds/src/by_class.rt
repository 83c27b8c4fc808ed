ghost use Rattle.std.specs.Prelude.{◌≡◌, ℕ, ◌<◌, ◌≤◌, length, MatchOption};
ghost use Rattle.arrayvec.specs.ArrayVec.{array_vec_len};
ghost use Rattle.grids.specs.Classes.{classes, fitting};
ghost use Rattle.pictures.specs.Pictures.{places};
ghost use Rattle.grids.proofs.Classes.{classes_sound};

use crate::bound::Bound;
use arrayvec::ArrayVec;
use masks::{Members, below, meet};
use pictures::Picture;

// Classes of places, of which none holds two neighbours, each as a mask.
pub type Partition = ArrayVec<u64, 64>;

// The classes of the places of `mask`: each place, upward, goes into the lowest class that holds no neighbour of it.
pub fn classes(p: &Picture, mask: u64) -> Partition
    ensures value { result.items ≡ classes p.now.rows mask (places p.now) }
    ensures bound { array_vec_len result ≤ 64 }
{
    let mut made = ArrayVec::new();
    for i in Members::of(meet(mask, below(p.count()))) {
        match fit(&made, p.row(i)) {
            Some(c) => made[c] |= 1 << i,
            None => made.push(1 << i),
        }
    }
    made
}

// The lowest class that holds no member of `row`, if there is one.
fn fit(made: &[u64], row: u64) -> Option<usize>
    ensures { MatchOption result (fitting row made.now ≡ length made.now) (λ c. (c ≡ fitting row made.now) × (c < length made.now)) }
{
    made.iter().position(|class| class & row == 0)
}

// How many classes the places of the mask fall into.
#[derive(Clone, Copy)]
pub struct ClassBound {}

impl Bound for ClassBound {
    ghost answer = { λ _ p m. length (classes p.rows m (places p)) };

    ghost sound = { λ s p m K h k. classes_sound p.rows p.even p.loopless m p.count K k.placed k.inside k.joins };

    fn bound(&self, p: &Picture, mask: u64) -> u32 {
        classes(p, mask).len() as u32
    }
}
