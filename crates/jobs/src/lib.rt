// A graph as a mask of jobs for each vertex.
#![tactic(auto)]

ghost use Rattle.std.specs.Prelude.{◌≡◌, ℕ, ◌<◌, ◌≤◌, true, false, [], length, MatchOption, MatchResult};
ghost use Rattle.finite.specs.Finite.{count, members, nth};
ghost use Rattle.graph.specs.Graph.{clash, degree, edges};
ghost use Rattle.jobs.specs.Jobs.{share, sharing, big, Fault};
ghost use Rattle.jobs.specs.Sharing.{sharing_lawful, big_parts};

use graph::refusal::Refusal;
use graph::{Listed, Source};
use std::alloc::Global;

// Whether two masks have a job in common.
fn meet(x: u64, y: u64) -> bool
    ensures { result ≡ share x y }
{
    x & y != 0
}

// Whether `a` and `b` are two vertices with a job in common.
fn joined(masks: &[u64], a: usize, b: usize) -> bool
    requires { (a < length masks.now) × (b < length masks.now) }
    ensures { result ≡ clash (sharing masks.now) a b }
{
    a != b && meet(masks[a], masks[b])
}

// How many neighbours of `a` are below `end`.
fn before(masks: &[u64], a: usize, end: usize) -> usize
    requires { (a < length masks.now) × (end ≤ length masks.now) }
    ensures { result ≡ count (clash (sharing masks.now) a) end }
{
    (0..end).filter(|b| joined(masks, a, *b)).count()
}

// The neighbour of `a` that has `i` neighbours below it.
fn ranked(masks: &[u64], a: usize, i: usize) -> Option<usize>
    requires { a < length masks.now }
    ensures listed { result ≡ nth (members (clash (sharing masks.now) a) (length masks.now)) i }
    ensures ranked { MatchOption result (degree (sharing masks.now) a ≤ i) (λ b. (b < length masks.now) × (clash (sharing masks.now) a b ≡ true) × (count (clash (sharing masks.now) a) b ≡ i)) }
{
    (0..masks.len()).filter(|b| joined(masks, a, *b)).nth(i)
}

// How many edges there are.
fn edges(masks: &[u64]) -> usize
    requires { length masks.now ≤ 1024 }
    ensures { result ≡ edges (sharing masks.now) }
{
    (0..masks.len()).map(|a| before(masks, a, a)).sum()
}

// A mask of jobs for each vertex. Two vertices clash where they have a job in common.
#[derive(Drop)]
pub struct JobForm {
    heap: Global,
    masks: Vec<u64>,
    ghost fits: { big masks.items ≡ false },
}

impl JobForm {
    // The graph without vertices.
    pub fn new(heap: Global) -> JobForm
        ensures { result.masks.items ≡ [] }
    {
        JobForm {
            heap,
            masks: Vec::new(heap),
        }
    }

    // Takes the masks in place of its own, or refuses and keeps its own.
    pub fn fill(&mut self, masks: &[u64]) -> Result<(), Refusal>
        ensures kept { MatchResult result (λ _. self.new.masks.items ≡ masks.now) (λ _. self.new ≡ self.old) }
        ensures judged { MatchResult result (λ _. big masks.now ≡ false) (Fault masks.now) }
    {
        if masks.len() > 1024 {
            return Err(Refusal::TooLarge);
        }
        if edges(masks) > 16384 {
            return Err(Refusal::TooLarge);
        }
        self.masks = Vec::from_slice(self.heap, masks)?;
        Ok(())
    }
}

impl Source for JobForm {
    ghost graph = { λ s. sharing s.masks.items };

    ghost lawful = { λ s. sharing_lawful s.masks.items (big_parts s.masks.items s.fits) };

    fn size(&self) -> usize {
        self.masks.len()
    }

    fn holds(&self, c: usize) -> bool {
        c < self.masks.len()
    }

    fn clashes(&self, a: usize, b: usize) -> bool {
        if a >= self.masks.len() || b >= self.masks.len() {
            return false;
        }
        joined(self.masks.as_slice(), a, b)
    }
}

impl Listed for JobForm {
    fn degree(&self, c: usize) -> usize {
        if c >= self.masks.len() {
            return 0;
        }
        before(self.masks.as_slice(), c, self.masks.len())
    }

    fn neighbour(&self, c: usize, i: usize) -> Option<usize> {
        if c >= self.masks.len() {
            return None;
        }
        ranked(self.masks.as_slice(), c, i)
    }
}
