// A layer that hides vertices of the source below it.
#![tactic(auto)]

ghost use Rattle.std.specs.Prelude.{◌≡◌, ℕ, ◌≤◌, true, false, not, ◌&&◌, ◌||◌, length, MatchResult, ◌==◌};
ghost use Rattle.graph.specs.Hiding.{without, marked, Hides, Shows, hide_answer, show_answer};
ghost use Rattle.graph.proofs.Hiding.{lawful_without};

use graph::neighbours::Neighbours;
use graph::refusal::Refusal;
use graph::{Listed, Source};

// The source below, without what is hidden.
#[derive(Drop)]
pub struct HideLayer<S: Listed + Drop> {
    below: S,
    hidden: [bool; 1024],
    ghost whole: { length hidden ≡ 1024 },
}

impl<S: Listed + Drop> HideLayer<S> {
    // A layer that hides nothing.
    pub fn over(below: S) -> HideLayer<S>
        ensures below { result.below ≡ below }
        ensures none { (k : ℕ) → marked result.hidden k ≡ false }
    {
        HideLayer {
            below,
            hidden: [false; 1024],
        }
    }

    // Whether this layer hides `c`.
    pub fn hides(&self, c: usize) -> bool
        ensures { result ≡ marked self.now.hidden c }
    {
        c < 1024 && self.hidden[c]
    }

    // Hides `c`, which has to be held.
    pub fn hide(&mut self, c: usize) -> Result<(), Refusal>
        ensures answer { result ≡ hide_answer (without (S.Source.graph self.old.below) (marked self.old.hidden)) c }
        ensures below { self.new.below ≡ self.old.below }
        ensures marks { MatchResult result (λ _. (k : ℕ) → marked self.new.hidden k ≡ (marked self.old.hidden k || k == c)) (λ _. self.new ≡ self.old) }
        ensures graph { MatchResult result (λ _. Hides (without (S.Source.graph self.old.below) (marked self.old.hidden)) (without (S.Source.graph self.new.below) (marked self.new.hidden)) c) (λ _. self.new ≡ self.old) }
    {
        if c >= self.below.size() {
            return Err(Refusal::OutOfRange);
        }
        if !self.below.holds(c) || self.hides(c) {
            return Err(Refusal::NotSo);
        }
        self.hidden[c] = true;
        Ok(())
    }

    // Shows `c`, which this layer has to hide.
    pub fn show(&mut self, c: usize) -> Result<(), Refusal>
        ensures answer { result ≡ show_answer (S.Source.graph self.old.below) (marked self.old.hidden) c }
        ensures below { self.new.below ≡ self.old.below }
        ensures marks { MatchResult result (λ _. (k : ℕ) → marked self.new.hidden k ≡ (marked self.old.hidden k && not (k == c))) (λ _. self.new ≡ self.old) }
        ensures graph { MatchResult result (λ _. Shows (S.Source.graph self.old.below) (without (S.Source.graph self.old.below) (marked self.old.hidden)) (without (S.Source.graph self.new.below) (marked self.new.hidden)) c) (λ _. self.new ≡ self.old) }
    {
        if c >= self.below.size() {
            return Err(Refusal::OutOfRange);
        }
        if !self.hides(c) {
            return Err(Refusal::NotSo);
        }
        self.hidden[c] = false;
        Ok(())
    }
}

impl<S: Listed + Drop> Source for HideLayer<S> {
    ghost graph = { λ s. without (S.Source.graph s.below) (marked s.hidden) };

    ghost lawful = { λ s. lawful_without (S.Source.graph s.below) (marked s.hidden) (S.Source.lawful s.below) };

    fn size(&self) -> usize {
        self.below.size()
    }

    fn holds(&self, c: usize) -> bool {
        self.below.holds(c) && !self.hides(c)
    }

    fn clashes(&self, a: usize, b: usize) -> bool {
        self.below.clashes(a, b) && !self.hides(a) && !self.hides(b)
    }
}

impl<S: Listed + Drop> Listed for HideLayer<S> {
    fn degree(&self, c: usize) -> usize {
        if !self.holds(c) {
            return 0;
        }
        Neighbours::of(&self.below, c)
            .filter(|b| !self.hides(*b))
            .count()
    }

    fn neighbour(&self, c: usize, i: usize) -> Option<usize> {
        if !self.holds(c) {
            return None;
        }
        Neighbours::of(&self.below, c)
            .filter(|other| !self.hides(*other))
            .nth(i)
    }
}
