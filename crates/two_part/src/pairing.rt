ghost use Rattle.std.specs.Prelude.{◌≡◌, ℕ, ◌+◌, ◌<◌, ◌≤◌, ◌&&◌, length, if◌then◌else◌, nat_le, slice_index};
ghost use Rattle.arrayvec.specs.ArrayVec.{array_vec_len};
ghost use Rattle.grids.specs.Largest.{at_least, largest, most};

use arrayvec::ArrayVec;

// The largest r + s such that `s` or more stands in r places of `us`, and `r` or more in s places of `ws`.
pub(crate) fn largest(us: &[u32], ws: &[u32]) -> usize
    requires { (length us.now ≤ 64) × (length ws.now ≤ 64) }
    ensures value { result ≡ largest (at_least us.now) (at_least ws.now) }
    ensures bound { result ≤ 128 }
{
    let reached = table(ws, us.len() + 1);
    let mut best: usize = 0;
    for s in 0..ws.len() + 1 {
        best = best.max(best_with(us, &reached, s));
    }
    best
}

// How many of `ws` are r or more, for each r below `end`.
fn table(ws: &[u32], end: usize) -> ArrayVec<usize, 65>
    requires { end ≤ 65 }
    ensures places { (r : ℕ) → r < end → slice_index result.items r ≡ at_least ws.now r }
    ensures len { array_vec_len result ≡ end }
{
    let mut reached = ArrayVec::new();
    for r in 0..end {
        reached.push(reach(ws, r));
    }
    reached
}

// The largest r + s for one s, where `reached` says how many places of the other part reach r.
fn best_with(us: &[u32], reached: &[usize], s: usize) -> usize
    requires few { length us.now ≤ 64 }
    requires len { length reached.now ≡ length us.now + 1 }
    requires within { s ≤ 64 }
    ensures { result ≡ most (λ r. (if nat_le r (at_least us.now s) && nat_le s (slice_index reached.now r) then r + s else 0)) 65 }
{
    let mut best = 0;
    for (r, reaching) in reached[..reach(us, s) + 1].iter().enumerate() {
        if s <= *reaching {
            best = r + s;
        }
    }
    best
}

// How many numbers are `least` or more.
fn reach(tops: &[u32], least: usize) -> usize
    ensures value { result ≡ at_least tops.now least }
    ensures bound { result ≤ length tops.now }
{
    // By hand: a filter's `count` branches at each number, and the bound took up to twice the branches.
    let mut count = 0;
    for t in tops {
        if *t as usize >= least {
            count += 1;
        }
    }
    count
}
