//! Peeling: taking out items with little support until none is left.
#![tactic(auto)]

ghost use Rattle.std.specs.Prelude.{◌≡◌, ◌≤◌, length, MatchResult};
ghost use Rattle.supports.specs.Peel.{Counted, PeeledIn};
ghost use Rattle.supports.specs.Levels.{DeepestIn};
ghost use Rattle.items.specs.Marks.{Clear, Same, Wiped};
ghost use Rattle.peeling.specs.Peeling.{Fits, IsTooLarge, PeelRefused, Tables};

use graph::refusal::Refusal;
use items::{Peeled, wipe};
use tables::{first_weak, lower, lowest, push_fallen, revive};

mod tables;

/// At most so many items are peeled.
pub const MOST: usize = 16384;

// Counts the support of each living item.
fn count_all<T, P: Peeled<T>>(
    pool: &P,
    list: &[T],
    table: &[u16],
    living: &[u8],
    marks: &mut [u8],
    counts: &mut [u16],
)
    requires ready { P.Peeled.indexed pool.now list.now table.now }
    requires lives { P.Peeled.items pool.now list.now ≤ length living.now }
    requires counted { P.Peeled.items pool.now list.now ≤ length counts.old }
    requires clear { Clear (P.Peeled.room pool.now list.now) marks.old }
    ensures counted { Counted (P.Peeled.support pool.now list.now) (P.Peeled.items pool.now list.now) living.now counts.new }
    ensures same { Same marks.old marks.new }
{
    for i in 0..pool.item_count(list) {
        if living[i] == 1 {
            counts[i] = pool.support_of(list, table, i, living, marks) as u16;
        }
    }
}

// By hand: a caller makes some of these tables and is lent the others, and a struct of nine loans would be built for each
// call.
// Takes out items with a support below `least` until none is left. Whoever falls below it is queued in `taken`
// behind those that are taken out already. Returns how many were taken out.
fn drain<T, P: Peeled<T>>(
    pool: &P,
    list: &[T],
    table: &[u16],
    least: usize,
    living: &mut [u8],
    marks: &mut [u8],
    counts: &mut [u16],
    taken: &mut [u16],
    out: &mut [u16],
) -> usize
    requires ready { P.Peeled.indexed pool.now list.now table.now }
    requires tables { Tables (P.Peeled.items pool.now list.now) (length living.old) (length counts.old) (length taken.old) (length out.old) }
    requires clear { Clear (P.Peeled.room pool.now list.now) marks.old }
    requires counted { Counted (P.Peeled.support pool.now list.now) (P.Peeled.items pool.now list.now) living.old counts.old }
    ensures peeled { PeeledIn (P.Peeled.support pool.now list.now) (P.Peeled.items pool.now list.now) least living.old living.new taken.old taken.new result }
    ensures counted { Counted (P.Peeled.support pool.now list.now) (P.Peeled.items pool.now list.now) living.new counts.new }
    ensures same { Same marks.old marks.new }
{
    let n = pool.item_count(list);
    let mut tail = first_weak(living, counts, n, least, taken);
    let mut head = 0;
    while head < tail {
        let x = taken[head] as usize;
        let lost = pool.losers(list, table, x, living, marks, out);
        living[x] = 0;
        lower(&out[..lost], n, counts);
        tail = push_fallen(&out[..lost], n, counts, least, taken, tail);
        head += 1;
    }
    tail
}

// Whether the items and their marks fit buffers of these lengths.
fn check<T, P: Peeled<T>>(
    pool: &P,
    list: &[T],
    living: usize,
    marks: usize,
    taken: usize,
) -> Result<(), Refusal>
    ensures { MatchResult result (λ _. Fits (P.Peeled.items pool.now list.now) (P.Peeled.room pool.now list.now) living marks taken) (IsTooLarge (P.Peeled.items pool.now list.now) (P.Peeled.room pool.now list.now) living marks taken) }
{
    let n = pool.item_count(list);
    if n > MOST {
        return Err(Refusal::TooLarge);
    }
    if living < n || marks < pool.mark_count(list) || taken < n {
        return Err(Refusal::ShortBuffer);
    }
    Ok(())
}

// Fills the table, clears the marks and counts the supports, or refuses.
fn prepare<T, P: Peeled<T>>(
    pool: &P,
    list: &[T],
    table: &mut [u16],
    living: &[u8],
    marks: &mut [u8],
    counts: &mut [u16],
) -> Result<(), Refusal>
    requires room { 33792 ≤ length table.old }
    requires counted { 16384 ≤ length counts.old }
    requires fits { Fits (P.Peeled.items pool.now list.now) (P.Peeled.room pool.now list.now) (length living.now) (length marks.old) 16384 }
    ensures ready { MatchResult result (λ _. P.Peeled.indexed pool.now list.now table.new × Counted (P.Peeled.support pool.now list.now) (P.Peeled.items pool.now list.now) living.now counts.new × Wiped (P.Peeled.room pool.now list.now) marks.old marks.new) (λ _. marks.new ≡ marks.old) }
    ensures refused { MatchResult result (λ _. P.Peeled.proper pool.now list.now) (λ x. (x ≡ Refusal.Unordered) × (P.Peeled.proper pool.now list.now → ⊥)) }
{
    if !pool.index(list, table) {
        return Err(Refusal::Unordered);
    }
    wipe(marks, pool.mark_count(list));
    count_all(pool, list, table, living, marks, counts);
    Ok(())
}

/// Takes out items with a support below `least` until no living item has one. The items whose byte in `living` is
/// 1 live; what is taken out gets 0, and is written to `taken` in its order. Returns how many were taken out.
pub fn peel<T, P: Peeled<T>>(
    pool: &P,
    list: &[T],
    least: usize,
    living: &mut [u8],
    marks: &mut [u8],
    taken: &mut [u16],
) -> Result<usize, Refusal>
    ensures cases { MatchResult result (λ len. PeeledIn (P.Peeled.support pool.now list.now) (P.Peeled.items pool.now list.now) least living.old living.new taken.old taken.new len × Wiped (P.Peeled.room pool.now list.now) marks.old marks.new) (λ _. (living.new ≡ living.old) × (marks.new ≡ marks.old) × (taken.new ≡ taken.old)) }
    ensures refused { MatchResult result (λ _. Fits (P.Peeled.items pool.now list.now) (P.Peeled.room pool.now list.now) (length living.old) (length marks.old) (length taken.old) × P.Peeled.proper pool.now list.now) (λ x. PeelRefused (P.Peeled.items pool.now list.now) (P.Peeled.room pool.now list.now) (P.Peeled.proper pool.now list.now) (length living.old) (length marks.old) (length taken.old) x) }
{
    check(pool, list, living.len(), marks.len(), taken.len())?;
    let mut table = [0u16; 33792];
    let mut counts = [0u16; 16384];
    prepare(pool, list, &mut table, living, marks, &mut counts)?;
    let mut out = [0u16; 16384];
    Ok(drain(
        pool,
        list,
        &table,
        least,
        living,
        marks,
        &mut counts,
        taken,
        &mut out,
    ))
}

// Peels at ever higher thresholds until nothing is left, and puts back what went last. Returns the threshold at
// which that stayed.
fn descend<T, P: Peeled<T>>(
    pool: &P,
    list: &[T],
    table: &[u16],
    living: &mut [u8],
    marks: &mut [u8],
    counts: &mut [u16],
    taken: &mut [u16],
    out: &mut [u16],
) -> usize
    requires ready { P.Peeled.indexed pool.now list.now table.now }
    requires tables { Tables (P.Peeled.items pool.now list.now) (length living.old) (length counts.old) (length taken.old) (length out.old) }
    requires clear { Clear (P.Peeled.room pool.now list.now) marks.old }
    requires counted { Counted (P.Peeled.support pool.now list.now) (P.Peeled.items pool.now list.now) living.old counts.old }
    ensures deepest { DeepestIn (P.Peeled.support pool.now list.now) (P.Peeled.items pool.now list.now) living.old living.new result }
    ensures same { Same marks.old marks.new }
{
    let n = pool.item_count(list);
    let mut next = 0;
    let mut len = 0;
    while let Some(low) = lowest(living, counts, n) {
        next = low as usize + 1;
        len = drain(pool, list, table, next, living, marks, counts, taken, out);
    }
    revive(&taken[..len], living);
    next.saturating_sub(1)
}

/// The largest threshold at which an item stays, and in `living` what stays at it: 0 where no item lives.
pub fn deepest<T, P: Peeled<T>>(
    pool: &P,
    list: &[T],
    living: &mut [u8],
    marks: &mut [u8],
) -> Result<usize, Refusal>
    ensures cases { MatchResult result (λ k. DeepestIn (P.Peeled.support pool.now list.now) (P.Peeled.items pool.now list.now) living.old living.new k × Wiped (P.Peeled.room pool.now list.now) marks.old marks.new) (λ _. (living.new ≡ living.old) × (marks.new ≡ marks.old)) }
    ensures refused { MatchResult result (λ _. Fits (P.Peeled.items pool.now list.now) (P.Peeled.room pool.now list.now) (length living.old) (length marks.old) 16384 × P.Peeled.proper pool.now list.now) (λ x. PeelRefused (P.Peeled.items pool.now list.now) (P.Peeled.room pool.now list.now) (P.Peeled.proper pool.now list.now) (length living.old) (length marks.old) 16384 x) }
{
    check(pool, list, living.len(), marks.len(), MOST)?;
    let mut table = [0u16; 33792];
    let mut counts = [0u16; 16384];
    prepare(pool, list, &mut table, living, marks, &mut counts)?;
    let mut taken = [0u16; 16384];
    let mut out = [0u16; 16384];
    Ok(descend(
        pool,
        list,
        &table,
        living,
        marks,
        &mut counts,
        &mut taken,
        &mut out,
    ))
}
