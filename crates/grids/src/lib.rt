// The theory of small graphs as rows of masks: classes, and pairs of parts.
#![tactic(auto)]

ghost use Rattle.std.specs.Prelude.{◌≡◌, ℕ, ◌<◌, ◌≤◌, Bool, true, List, length, ◌≢◌};
ghost use Rattle.finite.specs.Finite.{count};
ghost use Rattle.finite.specs.Masks.{bit};
ghost use Rattle.grids.specs.Grid.{linked, Even, Loopless};
ghost use Rattle.grids.specs.Classes.{classes};

// A clique has at most one member in each class.
pub fn grids_stand()
    ensures { (rows : List ℕ) → Even rows → Loopless rows → (m n : ℕ) (K : ℕ → Bool) → ((i : ℕ) → K i ≡ true → i < n) → ((i : ℕ) → K i ≡ true → bit m i ≡ true) → ((i j : ℕ) → K i ≡ true → K j ≡ true → (i ≢ j) → linked rows i j ≡ true) → count K 64 ≤ length (classes rows m n) }
{}
