ghost use Rattle.std.specs.Prelude.{◌+◌, ◌-◌, ◌<◌, ◌≤◌, length};
ghost use Rattle.climbing.specs.Climbs.{BlockIn, EachOnce, last};
ghost use Rattle.pictures.specs.Pictures.{places};
ghost use Rattle.searching.specs.Climbed.{Climbed};

use crate::at_least;
use bounds::Bound;
use climb::blocks::{picked_table, write_block};
use climb::gathering::gather;
use graph::Listed;
use masks::{below, meet, size, with};
use pictures::{Picture, draw_listed};

// A clique of a picture, and how many members it has.
#[derive(Clone, Copy)]
struct Found {
    mask: u64,
    len: usize,
}

// The place `v` is added to those below it: a largest clique of them all, and the old one unless it is larger.
fn climb_place<B: Bound>(bound: &B, p: &Picture, v: usize, best: Found) -> Found
    requires within { v < places p.now }
    requires climbed { Climbed p.now v best.mask best.len }
    ensures { Climbed p.now (v + 1) result.mask result.len }
{
    let later = meet(below(v), p.row(v));
    if (size(later) as usize) < best.len {
        return best;
    }
    match at_least(bound, p, later, best.len) {
        Some(found) => Found {
            mask: with(found, v),
            len: size(found) as usize + 1,
        },
        None => best,
    }
}

// A largest clique of the picture, place by place.
fn climb_picture<B: Bound>(bound: &B, p: &Picture) -> Found
    ensures { Climbed p.now (places p.now) result.mask result.len }
{
    let mut best = Found { mask: 0, len: 0 };
    for v in 0..p.count() {
        best = climb_place(bound, p, v, best);
    }
    best
}

// The block becomes a largest clique of the vertices from `start` on, of which there are at most 64: their steps are all
// made in one picture. Answers how many members it has.
pub(crate) fn climb_tail<S: Listed, B: Bound>(
    source: &S,
    bound: &B,
    order: &[u16],
    start: usize,
    block: &mut [u16; 64],
) -> usize
    requires within { start ≤ length order.now }
    requires few { length order.now ≤ start + 64 }
    ensures bound { result ≤ 64 }
    ensures block { EachOnce (S.Source.graph source.now) order.now → BlockIn (S.Source.graph source.now) (last order.now (length order.now - start)) block.new result }
{
    let Some(chosen) = gather::<64, _>(&order[start..], |_| true) else {
        return 0;
    };
    let picture = draw_listed(source, &chosen).unwrap();
    let mask = climb_picture(bound, &picture).mask;
    write_block(block, source.size(), &picked_table(&chosen, mask))
}
