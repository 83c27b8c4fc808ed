//! The trial: whether a kernel has a proper colouring in 1 to k.
#![tactic(auto)]

ghost use Rattle.std.specs.Prelude.{◌≡◌, ℕ, ◌+◌, ◌<◌, ◌≤◌, true, length, MatchResult};
ghost use Rattle.finite.specs.Masks.{bit};
ghost use Rattle.kernels.specs.Kernels.{joined, places};
ghost use Rattle.placings.specs.Colours.{at};
ghost use Rattle.placings.specs.Tries.{Near, Worn};
ghost use Rattle.trials.specs.Trials.{ReadyAt, Picked, LeftAt, OpenAt, Placed, Chosen, Tried};

use graph::refusal::Refusal;
use hints::Hints;
use kernels::Kernel;
use masks::{Members, below, lowest, meet, minus, with, without};

// Of the 64 colours above `base` those of the members, places counted on from `from`.
fn worn(members: u64, table: &[u16], from: usize, base: usize) -> u64
    requires long { (v : ℕ) → bit members v ≡ true → from + v < length table.now }
    requires low { base ≤ 256 }
    ensures { Worn members table.now from base result }
{
    let mut worn = 0u64;
    for v in Members::of(members) {
        let d = table[from + v] as usize;
        if base < d && d <= base + 64 {
            worn = with(worn, d - base - 1);
        }
    }
    worn
}

// What is asked of a kernel: a proper colouring in 1 to `k`.
#[derive(Clone, Copy)]
struct Task<'a> {
    kernel: &'a Kernel,
    k: usize,
}

impl<'a> Task<'a> {
    // Of the 64 colours above `base` those of the places that are joined to `c`.
    fn taken_near(&self, table: &[u16], c: usize, base: usize) -> u64
        requires place { c < places self.now.kernel.now }
        requires long { places self.now.kernel.now ≤ length table.now }
        requires low { base ≤ 256 }
        ensures { Near (places self.now.kernel.now) (joined self.now.kernel.now) table.now c 256 base result }
    {
        let n = self.kernel.count();
        let mut taken = 0u64;
        for w in 0..4 {
            let from = 64 * w;
            if from < n {
                let row = meet(self.kernel.word(c, w), below((n - from).min(64)));
                taken |= worn(row, table, from, base);
            }
        }
        taken
    }

    // Of the 64 colours above `base` those that are free at `c`, up to `k` and at most one that is not in use yet.
    fn open(&self, table: &[u16], c: usize, base: usize, used: usize) -> u64
        requires place { c < places self.now.kernel.now }
        requires long { places self.now.kernel.now ≤ length table.now }
        requires low { base ≤ used }
        requires high { used < places self.now.kernel.now }
        ensures { OpenAt self.now.kernel.now table.now c base used self.now.k result }
    {
        let top = self.k.min(used + 1);
        let low = below(top.saturating_sub(base).min(64));
        minus(low, self.taken_near(table, c, base))
    }

    // The first place that has no colour.
    fn first_blank(&self, table: &[u16]) -> Option<usize>
        requires { places self.now.kernel.now ≤ length table.now }
        ensures { Picked self.now.kernel.now table.now result }
    {
        table[..self.kernel.count()].iter().position(|d| *d == 0)
    }

    // A place that has no colour: where the hints are right, one with the fewest colours left.
    fn pick(&self, hints: &Hints, table: &[u16], used: usize) -> Option<usize>
        requires { places self.now.kernel.now ≤ length table.now }
        ensures { Picked self.now.kernel.now table.now result }
    {
        match hints.keenest_taken(self.kernel, used, self.k) {
            Some(c) if c < self.kernel.count() && table[c] == 0 => Some(c),
            _ => self.first_blank(table),
        }
    }

    // Colours the places that have no colour, where those that have one have none above `used`.
    #[cycle(choose_place)]
    fn place(&self, hints: &mut Hints, table: &mut [u16], used: usize) -> bool
        requires { ReadyAt self.now.kernel.now self.now.k used table.old }
        ensures { Placed self.now.kernel.now self.now.k table.old table.new result }
    {
        match self.pick(hints, table, used) {
            None => true,
            Some(place) => {
                let left = self.open(table, place, 0, used);
                self.choose(hints, table, place, 0, left, used)
            }
        }
    }

    // Gives the place one of the 64 colours above `base` that are left or of those above them, and colours the others.
    // By hand: place, base and left are passed one by one. A struct of the three lies on the stack, and then the compiler
    // makes a frame of each colour that is gone on to, where it makes a loop of these calls.
    #[cycle(choose_place)]
    fn choose(
        &self,
        hints: &mut Hints,
        table: &mut [u16],
        place: usize,
        base: usize,
        left: u64,
        used: usize,
    ) -> bool
        requires ready { ReadyAt self.now.kernel.now self.now.k used table.old }
        requires place { place < places self.now.kernel.now }
        requires blank { at table.old place ≡ 0 }
        requires low { base ≤ used }
        requires high { used < places self.now.kernel.now }
        requires left { LeftAt self.now.kernel.now table.old place base used self.now.k left }
        ensures { Chosen self.now.kernel.now self.now.k place base left used table.old table.new result }
    {
        if left == 0 {
            if base + 64 >= self.k || base + 64 > used {
                return false;
            }
            let base = base + 64;
            let left = self.open(table, place, base, used);
            return self.choose(hints, table, place, base, left, used);
        }
        let j = lowest(left);
        let d = base + j + 1;
        table[place] = d as u16;
        hints.note(self.kernel, place, d);
        if self.place(hints, table, used.max(d)) {
            return true;
        }
        hints.forget(place, d);
        table[place] = 0;
        let left = without(left, j);
        self.choose(hints, table, place, base, left, used)
    }
}

/// Whether the kernel has a proper colouring in 1 to `k`, which then stands in the table.
/// Refused where the table is shorter than the places.
pub fn colour(kernel: &Kernel, table: &mut [u16], k: usize) -> Result<bool, Refusal>
    ensures { MatchResult result (Tried kernel.now k table.old table.new) (λ x. (x ≡ Refusal.ShortBuffer) × (length table.old < places kernel.now) × (table.new ≡ table.old)) }
{
    let n = kernel.count();
    if table.len() < n {
        return Err(Refusal::ShortBuffer);
    }
    let task = Task { kernel, k };
    let mut hints = Hints::new(n);
    let mut found = [0u16; 256];
    if !task.place(&mut hints, &mut found, 0) {
        return Ok(false);
    }
    table[..n].copy_from_slice(&found[..n]);
    Ok(true)
}
