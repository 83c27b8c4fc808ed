// A largest clique of a picture, by a search that branches only on what classes of places that are not joined leave.
#![tactic(auto)]

ghost use Rattle.finite.specs.Masks.{bit};
ghost use Rattle.finite.specs.Supports.{Within};
ghost use Rattle.searching.specs.Answers.{Answers};
ghost use Rattle.searching.specs.Cuts.{Class, Cut};

use bounds::Bound;
use cliques::{Branching, may_pass, search};
use masks::{lowest, minus, without};
use pictures::Picture;

// A largest clique inside `mask`, if it has more than `size` members. Places beyond the picture's count are passed over.
pub fn largest<B: Bound>(bound: &B, p: &Picture, mask: u64, size: usize) -> Option<u64>
    ensures { Answers p.now mask size result }
{
    search(&ByClasses { bound }, p, mask, size)
}

// The places that classes leave, found once for each mask.
#[derive(Drop)]
struct ByClasses<'a, B> {
    bound: &'a B,
}

impl<'a, B: Bound> Branching for ByClasses<'a, B> {
    fn first(&self, p: &Picture, m: u64, room: usize) -> u64 {
        to_branch(self.bound, p, m, room)
    }

    fn again(&self, _: &Picture, _: u64, left: u64, _: usize) -> u64 {
        left
    }
}

// The places of `m` to branch on: without them no clique inside it passes `room`. There are none where the bound says so.
// The bound, which may cost more, is asked only where classes do not settle it.
fn to_branch<B: Bound>(bound: &B, p: &Picture, m: u64, room: usize) -> u64
    ensures within { Within (bit result) (bit m) }
    ensures cut { Cut p.now m result room }
{
    let left = uncovered(p, m, room);
    if left == 0 {
        return left;
    }
    if may_pass(bound, p, m, room) { left } else { 0 }
}

// What is left of `m` when `room` classes, of which none has two neighbours, are taken from it.
fn uncovered(p: &Picture, m: u64, room: usize) -> u64
    ensures within { Within (bit result) (bit m) }
    ensures cut { Cut p.now m result room }
{
    let mut left = m;
    for _ in 0..room {
        if left == 0 {
            return 0;
        }
        left = but_a_class(p, left);
    }
    left
}

// `m` but for a class of places that are not joined: from the lowest on, each that has no neighbour in the class.
fn but_a_class(p: &Picture, m: u64) -> u64
    ensures within { Within (bit result) (bit m) }
    ensures apart { Class p.now m result }
{
    let mut left = m;
    let mut free = m;
    // By hand: a turn takes more from what is free than the member that it is for.
    while free != 0 {
        let v = lowest(free);
        left = without(left, v);
        free = minus(without(free, v), p.row(v));
    }
    left
}
