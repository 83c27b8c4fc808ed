//! The order in which the vertices of a graph are removed, fewest living neighbours first.
#![tactic(auto)]

ghost use Rattle.std.specs.Prelude.{◌≡◌, ℕ, ◌+◌, ◌<◌, ◌≤◌, true, false, length, take, drop, if◌then◌else◌, MatchOption, MatchResult, slice_index, slice_index_or};
ghost use Rattle.finite.specs.Finite.{Fewest};
ghost use Rattle.graph.specs.Graph.{held, clash, degree, vertices};
ghost use Rattle.graph.specs.Degeneracy.{IsDegeneracy};
ghost use Rattle.degeneracy.specs.Theorems.{OneOrder, PeakIsDegeneracy, OneDegeneracy, DegeneracyIsCore, NoneHeld};
ghost use Rattle.order.specs.Order.{OrderedIn, OrderRefused};

use graph::neighbours::Neighbours;
use graph::refusal::Refusal;
use graph::{Listed, Source};

/// The largest degeneracy that is taken.
pub const DENSEST: usize = 63;

/// How long the order is, and the most living neighbours that a vertex had when it was removed.
#[derive(Clone, Copy, PartialEq, Eq, Debug)]
pub struct Ordered {
    pub len: usize,
    pub degeneracy: usize,
}

/// A graph has one order, whose largest count is the degeneracy, and that is the largest core number.
pub fn orders_stand()
    ensures order { OneOrder }
    ensures peak { PeakIsDegeneracy }
    ensures one { OneDegeneracy }
    ensures core { DegeneracyIsCore }
    ensures none { NoneHeld }
{}

/// How many vertices the source holds.
pub fn vertex_count<S: Source>(source: &S) -> usize
    ensures { result ≡ vertices (S.Source.graph source.now) }
{
    (0..source.size()).filter(|c| source.holds(*c)).count()
}

// Writes at each number whether it is a vertex.
fn fill_alive<S: Source>(source: &S, alive: &mut [bool])
    requires { (S.Source.graph source.now).size ≤ length alive.old }
    ensures { (c : ℕ) → c < (S.Source.graph source.now).size → slice_index_or alive.new c false ≡ held (S.Source.graph source.now) c }
{
    for (c, lives) in alive[..source.size()].iter_mut().enumerate() {
        *lives = source.holds(c);
    }
}

// Writes at each number how many neighbours it has.
fn fill_degrees<S: Listed>(source: &S, left: &mut [u16])
    requires { (S.Source.graph source.now).size ≤ length left.old }
    ensures { (c : ℕ) → c < (S.Source.graph source.now).size → slice_index left.new c ≡ degree (S.Source.graph source.now) c }
{
    for (c, with) in left[..source.size()].iter_mut().enumerate() {
        *with = source.degree(c) as u16;
    }
}

// The living number below n with the least in `left`, the lowest of those.
fn fewest(alive: &[bool], left: &[u16], n: usize) -> Option<usize>
    requires { (n ≤ length alive.now) × (n ≤ length left.now) }
    ensures { MatchOption result ((c : ℕ) → c < n → slice_index_or alive.now c false ≡ false) (λ x. Fewest (λ c. slice_index_or alive.now c false) (λ c. slice_index left.now c) n x) }
{
    let mut best = None;
    // By hand: a filter with `min_by_key` took more steps, and the order asks for the fewest once for each vertex.
    for c in 0..n {
        if alive[c] {
            best = match best {
                Some(b) if left[b] <= left[c] => Some(b),
                _ => Some(c),
            };
        }
    }
    best
}

// Takes x from the counts: each neighbour of x has one fewer.
fn take_out<S: Listed>(source: &S, x: usize, left: &mut [u16])
    requires fits { (S.Source.graph source.now).size ≤ length left.old }
    requires living { (c : ℕ) → c < (S.Source.graph source.now).size → clash (S.Source.graph source.now) x c ≡ true → 0 < slice_index left.old c }
    ensures { (c : ℕ) → c < (S.Source.graph source.now).size → slice_index left.old c ≡ slice_index left.new c + (if clash (S.Source.graph source.now) x c then 1 else 0) }
{
    for b in Neighbours::of(source, x) {
        left[b] -= 1;
    }
}

// Removes again and again the vertex with the fewest living neighbours, the lowest of those.
fn remove_all<S: Listed>(source: &S, order: &mut [u16]) -> Ordered
    requires { vertices (S.Source.graph source.now) ≤ length order.old }
    ensures { OrderedIn (S.Source.graph source.now) order.old order.new result.len result.degeneracy }
{
    let n = source.size();
    let mut alive = [false; 1024];
    let mut left = [0u16; 1024];
    fill_alive(source, &mut alive);
    fill_degrees(source, &mut left);
    let mut len = 0;
    let mut most = 0;
    while let Some(x) = fewest(&alive, &left, n) {
        most = most.max(usize::from(left[x]));
        // By hand: the loop ends when no vertex lives, and the buffer is the caller's.
        order[len] = x as u16;
        len += 1;
        alive[x] = false;
        take_out(source, x, &mut left);
    }
    Ordered {
        len,
        degeneracy: most,
    }
}

/// How many vertices any graph has, however dense, and its degeneracy.
pub fn degeneracy<S: Listed>(source: &S) -> Ordered
    ensures len { result.len ≡ vertices (S.Source.graph source.now) }
    ensures degeneracy { IsDegeneracy (S.Source.graph source.now) result.degeneracy }
{
    let mut table = [0u16; 1024];
    remove_all(source, &mut table)
}

/// Writes the removal order into the first places of `order`, and says how long it is and the degeneracy.
/// Refuses a buffer shorter than the vertices, and then a degeneracy above 63.
pub fn removal_order<S: Listed>(source: &S, order: &mut [u16]) -> Result<Ordered, Refusal>
    ensures { MatchResult result (λ o. OrderedIn (S.Source.graph source.now) order.old order.new o.len o.degeneracy × (o.degeneracy ≤ 63)) (λ x. OrderRefused (S.Source.graph source.now) (length order.old) x × (order.new ≡ order.old)) }
{
    if order.len() < vertex_count(source) {
        return Err(Refusal::ShortBuffer);
    }
    let mut table = [0u16; 1024];
    let ordered = remove_all(source, &mut table);
    if ordered.degeneracy > DENSEST {
        return Err(Refusal::TooDense);
    }
    order[..ordered.len].copy_from_slice(&table[..ordered.len]);
    Ok(ordered)
}
