ghost use Rattle.std.specs.Prelude.{◌≡◌, ◌<◌, ◌≤◌, length, MatchOption};
ghost use Rattle.finite.specs.Finite.{count, members};
ghost use Rattle.supports.specs.Peel.{alive};

use arrayvec::ArrayVec;

/// Those of the first n numbers whose byte is 1, rising: `None` if they are more than N.
pub fn list_living<const N: usize>(living: &[u8], n: usize) -> Option<ArrayVec<u16, N>>
    requires lives { n ≤ length living.now }
    requires few { n ≤ 1024 }
    ensures { MatchOption result (N < count (alive n living.now) n) (λ v. v.items ≡ members (alive n living.now) n) }
{
    let mut list = ArrayVec::new();
    for (c, lives) in living[..n].iter().enumerate() {
        if *lives == 1 {
            list.try_push(c as u16).ok()?;
        }
    }
    Some(list)
}
