ghost use Rattle.std.specs.Prelude.{◌≡◌, ℕ, ◌<◌, Bool, length, MatchOption};
ghost use Rattle.climbing.specs.Climbs.{backward};

use arrayvec::ArrayVec;

// The numbers that pass, the last first: `None` if there are more than `N`.
pub fn gather<const N: usize, F: Fn(usize) -> bool>(
    xs: &[u16],
    passes: F,
) -> Option<ArrayVec<u16, N>>
    requires { F.IsAlwaysCallable passes }
    ensures { (t : ℕ → Bool) → ((c : ℕ) (r : Bool) → F.post passes c r → r ≡ t c) → MatchOption result (N < length (backward t xs.now)) (λ q. q.items ≡ backward t xs.now) }
{
    let mut found = ArrayVec::new();
    for c in xs.iter().rev() {
        if passes(*c as usize) {
            if found.is_full() {
                return None;
            }
            found.push(*c);
        }
    }
    Some(found)
}
