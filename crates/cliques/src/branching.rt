ghost use Rattle.finite.specs.Masks.{bit};
ghost use Rattle.finite.specs.Supports.{Within};
ghost use Rattle.searching.specs.Cuts.{Cut};

use crate::may_pass;
use bounds::Bound;
use pictures::Picture;

// Which places of a mask a search branches on: without them no clique inside the mask passes `room`.
pub trait Branching {
    // The places of `m`, when the search comes to it.
    fn first(&self, p: &Picture, m: u64, room: usize) -> u64
        ensures within { Within (bit result) (bit m) }
        ensures cut { Cut p.now m result room };

    // The places of `m`, of which `left` would do, at each turn.
    fn again(&self, p: &Picture, m: u64, left: u64, room: usize) -> u64
        requires within { Within (bit left) (bit m) }
        requires cut { Cut p.now m left room }
        ensures within { Within (bit result) (bit m) }
        ensures cut { Cut p.now m result room };
}

// All places, as long as the bound may pass the room.
#[derive(Drop)]
pub(crate) struct ByBound<'a, B> {
    pub(crate) bound: &'a B,
}

impl<'a, B: Bound> Branching for ByBound<'a, B> {
    fn first(&self, _: &Picture, m: u64, _: usize) -> u64 {
        m
    }

    fn again(&self, p: &Picture, m: u64, _: u64, room: usize) -> u64 {
        if may_pass(self.bound, p, m, room) {
            m
        } else {
            0
        }
    }
}
