// A largest clique of a picture, by a search that a rule cuts short.
#![tactic(auto)]

ghost use Rattle.std.specs.Prelude.{◌≡◌, ◌<◌, true, false, ◌&&◌, nat_lt};
ghost use Rattle.finite.specs.Finite.{count};
ghost use Rattle.finite.specs.Masks.{bit};
ghost use Rattle.searching.specs.Answers.{Answers, AtMost};

use bounds::Bound;
use pictures::Picture;

mod branching;
mod levels;

pub use branching::Branching;
use branching::ByBound;
pub use levels::search;

// A largest clique inside `mask`, if it has more than `size` members. Places beyond the picture's count are passed over.
pub fn largest<B: Bound>(bound: &B, p: &Picture, mask: u64, size: usize) -> Option<u64>
    ensures { Answers p.now mask size result }
{
    search(&ByBound { bound }, p, mask, size)
}

// Whether `m` and the bound on its cliques both pass `room`: otherwise no clique inside `m` does.
pub fn may_pass<B: Bound>(bound: &B, p: &Picture, m: u64, room: usize) -> bool
    ensures value { result ≡ (nat_lt room (count (bit m) 64) && nat_lt room (B.Bound.answer bound.now p.now m)) }
    ensures left { result ≡ false → AtMost p.now m room }
    ensures some { result ≡ true → 0 < m }
{
    masks::size(m) as usize > room && bound.bound(p, m) as usize > room
}
