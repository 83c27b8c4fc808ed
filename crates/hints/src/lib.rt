//! Which places have the most colours around them: hints for the order of the trial, on which no answer rests.
#![tactic(auto)]

ghost use Rattle.std.specs.Prelude.{◌<◌};

use kernels::Kernel;
use masks::{Members, below, has, lowest, minus, size};

// Four words: a set of the 256 places of a kernel.
type Row = [u64; 4];

#[derive(Drop)]
pub struct Hints {
    // for each of the first 64 colours: the places that are joined to one that has it
    near: [Row; 64],
    // for each place: what stood there before its colour was noted
    saved: [Row; 256],
    // the places without a colour
    blank: Row,
}

// What a place is chosen by: the tied places, how many colours are in use, and how many there may be.
#[derive(Clone, Copy)]
struct Choosing<'a> {
    kernel: &'a Kernel,
    tied: Row,
    used: usize,
    k: usize,
}

// A place, and how keenly it wants a colour.
#[derive(Clone, Copy)]
struct Choice {
    place: usize,
    score: u32,
}

// Counts the members of `row`: plane `i` has bit `i` of each count.
fn add(planes: &mut [u64], row: u64) {
    let mut carry = row;
    for plane in planes.iter_mut() {
        let old = *plane;
        *plane = old ^ carry;
        carry = old & carry;
    }
}

// The highest count among the members, and those that have it.
fn highest(planes: &[u64], members: u64) -> (u64, u64) {
    let mut best = members;
    let mut count = 0u64;
    for plane in planes.iter().rev() {
        let both = best & *plane;
        count <<= 1;
        if both != 0 {
            best = both;
            count |= 1;
        }
    }
    (count, best)
}

// The places below `n` in the word `w`.
fn front(n: usize, w: usize) -> u64
    requires { w < 4 }
{
    below(n.saturating_sub(64 * w).min(64))
}

impl Hints {
    // No place has a colour.
    pub fn new(n: usize) -> Hints {
        Hints {
            near: [[0; 4]; 64],
            saved: [[0; 4]; 256],
            blank: [front(n, 0), front(n, 1), front(n, 2), front(n, 3)],
        }
    }

    // Place `c` gets the colour `d`.
    pub fn note(&mut self, kernel: &Kernel, c: usize, d: usize) {
        if c >= 256 || d == 0 || d > 64 {
            return;
        }
        self.blank[c / 64] &= u64::MAX ^ 1 << (c % 64);
        let mut row = self.near[d - 1];
        self.saved[c] = row;
        for (w, word) in row.iter_mut().enumerate() {
            *word |= kernel.word(c, w);
        }
        self.near[d - 1] = row;
    }

    // Place `c` had the colour `d` last, and loses it.
    pub fn forget(&mut self, c: usize, d: usize) {
        if c >= 256 || d == 0 || d > 64 {
            return;
        }
        self.blank[c / 64] |= 1 << (c % 64);
        self.near[d - 1] = self.saved[c];
    }

    // How many of the first colours are around each place of the word `w`.
    fn tally(&self, w: usize, used: usize) -> [u64; 7]
        requires { w < 4 }
    {
        let mut planes = [0u64; 7];
        for row in self.near[..used.min(64)].iter() {
            add(&mut planes, row[w]);
        }
        planes
    }

    // The places without a colour that have the most colours around them.
    fn tied(&self, used: usize) -> Row {
        let mut tied = [0u64; 4];
        let mut most = 0u64;
        for (w, blank) in self.blank.iter().enumerate() {
            let (count, best) = highest(&self.tally(w, used), *blank);
            if count > most {
                tied = [0; 4];
                most = count;
            }
            if count == most {
                tied[w] = best;
            }
        }
        tied
    }

    // How many of the members of the word `w` have a colour left that `c` has left, summed over the colours in use.
    fn common(&self, members: u64, w: usize, c: usize, used: usize) -> u32
        requires { (w < 4) × (c < 256) }
    {
        let mut total = 0u32;
        for row in self.near[..used.min(64)].iter() {
            if !has(row[c / 64], c % 64) {
                total = total.saturating_add(size(minus(members, row[w])));
            }
        }
        total
    }

    // How keenly `c` wants a colour: by the colours, up to `k`, that it has left in common with the tied places that are
    // joined to it, and then by its neighbours without a colour.
    fn score(&self, choosing: &Choosing, c: usize) -> u32
        requires { c < 256 }
    {
        let Choosing {
            kernel,
            used,
            k,
            ..
        } = *choosing;
        let unused = k.saturating_sub(used).min(256) as u32;
        let mut total = 0u32;
        for (w, word) in choosing.tied.iter().enumerate() {
            let row = kernel.word(c, w);
            total = total.saturating_add(size(row & self.blank[w]));
            let joined = row & *word;
            if joined != 0 {
                let fresh = unused.saturating_mul(size(joined));
                let shared = self.common(joined, w, c, used).saturating_add(fresh);
                total = total.saturating_add(shared.saturating_mul(257));
            }
        }
        total
    }

    // The first place with the highest score: one of the tied places of the word `w`, or the one that was best so far.
    fn keenest(&self, choosing: &Choosing, w: usize, so_far: Option<Choice>) -> Option<Choice>
        requires { w < 4 }
    {
        let mut best = so_far;
        for j in Members::of(choosing.tied[w]) {
            let place = 64 * w + j;
            let score = self.score(choosing, place);
            if best.is_none_or(|b| score > b.score) {
                best = Some(Choice { place, score });
            }
        }
        best
    }

    // The first of the places without a colour that have the most colours around them.
    pub fn most_taken(&self, used: usize) -> Option<usize> {
        let tied = self.tied(used);
        let w = tied.iter().position(|word| *word != 0)?;
        Some(64 * w + lowest(tied[w]))
    }

    // The place without a colour that has the most colours around it, of those the first with the highest score.
    pub fn keenest_taken(&self, kernel: &Kernel, used: usize, k: usize) -> Option<usize> {
        let tied = self.tied(used);
        let choosing = Choosing {
            kernel,
            tied,
            used,
            k,
        };
        let mut best = None;
        for w in 0..4 {
            best = self.keenest(&choosing, w, best);
        }
        best.map(|b| b.place)
    }
}
