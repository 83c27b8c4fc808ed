ghost use Rattle.std.specs.Prelude.{◌≡◌, ℕ};
ghost use Rattle.grids.specs.Largest.{at_least, top};
ghost use Rattle.two_part.specs.TwoPart.{clique_degree, part_reaching};

use arrayvec::ArrayVec;
use bounds::{Bound, classes};
use masks::{Members, meet};
use pictures::Picture;

// The largest clique degree in each class of `own`, towards `other`.
pub(crate) fn tops<B: Bound>(bound: &B, p: &Picture, own: u64, other: u64) -> ArrayVec<u32, 64>
    ensures { (s : ℕ) → at_least result.items s ≡ part_reaching (B.Bound.answer bound.now) p.now own other s }
{
    let mut tops = ArrayVec::new();
    let parted = classes(p, own);
    for class in parted.iter() {
        tops.push(top(bound, p, *class, other));
    }
    tops
}

// The largest clique degree in a class, towards `other`.
fn top<B: Bound>(bound: &B, p: &Picture, class: u64, other: u64) -> u32
    ensures { result ≡ top (clique_degree (B.Bound.answer bound.now) p.now other) class }
{
    let mut best: u32 = 0;
    for i in Members::of(class) {
        best = best.max(bound.bound(p, meet(p.row(i), other)));
    }
    best
}
