// Loops over the tables of peeling.
ghost use Rattle.std.specs.Prelude.{◌≡◌, ℕ, ◌+◌, ◌<◌, ◌≤◌, Bool, true, false, length, take, if◌then◌else◌, MatchOption, ◌==◌, slice_index};
ghost use Rattle.finite.specs.Finite.{count, has};
ghost use Rattle.supports.specs.Peel.{alive};
ghost use Rattle.supports.proofs.Queues.{Queue, lesser, fallen};
ghost use Rattle.supports.proofs.Descents.{LowestCount};

// Queues the living items with a count below `least`. Returns how many they are.
pub fn first_weak(living: &[u8], counts: &[u16], n: usize, least: usize, taken: &mut [u16]) -> usize
    requires lives { n ≤ length living.now }
    requires counted { n ≤ length counts.now }
    requires takes { n ≤ length taken.old }
    requires few { n ≤ 16384 }
    ensures { Queue n (lesser n living.now counts.now least n) taken.old taken.new 0 result }
{
    let mut tail = 0;
    for c in 0..n {
        if living[c] == 1 && (counts[c] as usize) < least {
            // By hand: the queue is the caller's buffer.
            taken[tail] = c as u16;
            tail += 1;
        }
    }
    tail
}

// Lowers the count of each item that is listed.
pub fn lower(lost: &[u16], n: usize, counts: &mut [u16])
    requires many { count (has lost.now) n ≡ length lost.now }
    requires within { (c : ℕ) → has lost.now c ≡ true → c < length counts.old }
    requires positive { (c : ℕ) → has lost.now c ≡ true → 0 < slice_index counts.old c }
    ensures { (c : ℕ) → slice_index counts.old c ≡ slice_index counts.new c + (if has lost.now c then 1 else 0) }
{
    for x in lost {
        counts[*x as usize] -= 1;
    }
}

// Queues those of the listed items that have just fallen below `least`.
pub fn push_fallen(
    lost: &[u16],
    n: usize,
    counts: &[u16],
    least: usize,
    taken: &mut [u16],
    tail: usize,
) -> usize
    requires many { count (has lost.now) n ≡ length lost.now }
    requires within { (c : ℕ) → has lost.now c ≡ true → c < n }
    requires counted { n ≤ length counts.now }
    requires takes { n ≤ length taken.old }
    requires queue { count (has (take tail taken.old)) n ≡ tail }
    requires fresh { (c : ℕ) → has lost.now c ≡ true → (slice_index counts.now c + 1 == least) ≡ true → has (take tail taken.old) c ≡ false }
    ensures { Queue n (fallen lost.now counts.now least (length lost.now)) taken.old taken.new tail result }
{
    let mut end = tail;
    for x in lost {
        if counts[*x as usize] as usize + 1 == least {
            // By hand: the queue is the caller's buffer.
            taken[end] = *x;
            end += 1;
        }
    }
    end
}

// The lowest count of a living item, if one lives.
pub fn lowest(living: &[u8], counts: &[u16], n: usize) -> Option<u16>
    requires lives { n ≤ length living.now }
    requires counted { n ≤ length counts.now }
    ensures { MatchOption result ((c : ℕ) → alive n living.now c ≡ false) (LowestCount n living.now counts.now) }
{
    (0..n).filter(|c| living[*c] == 1).map(|c| counts[c]).min()
}

// Writes 1 at each item that is listed.
pub fn revive(taken: &[u16], living: &mut [u8])
    requires { (c : ℕ) → has taken.now c ≡ true → c < length living.old }
    ensures { (c : ℕ) → slice_index living.new c ≡ (if has taken.now c then 1 else slice_index living.old c) }
{
    for x in taken {
        living[*x as usize] = 1;
    }
}
