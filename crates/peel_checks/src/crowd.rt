// A stock with more clashes than there may be, which no form takes.
ghost use Rattle.peel_checks.specs.Crowds.{crowd};
ghost use Rattle.std.proofs.Common.{◌∙◌, lit<};
ghost use Rattle.std.specs.Prelude.{not, ◌==◌, nat_lt, refl};
ghost use Rattle.std.proofs.lemmas.Bool.{eq-eqb};
ghost use Rattle.peel_checks.specs.CrowdSourceLemmas.{eqb_both, turn, none};

use capping::cap;
use graph::edge::Edge;
use graph::refusal::Refusal;
use graph::{Listed, Source};

// 182 cartridges that all clash: 16,471 clashes
#[derive(Drop)]
struct Crowd {}

impl Source for Crowd {
    ghost graph = { λ _. crowd };

    ghost lawful = { λ s.
        record {
          small = lit< tt;
          both = λ a b. turn (nat_lt a 182) (nat_lt b 182) (not (a == b)) ∙ rw (eqb_both a b) refl;
          never = λ a. rw (eq-eqb a a refl) (none (nat_lt a 182));
        } };

    fn size(&self) -> usize {
        182
    }

    fn holds(&self, c: usize) -> bool {
        c < 182
    }

    fn clashes(&self, a: usize, b: usize) -> bool {
        a < 182 && b < 182 && a != b
    }
}

impl Listed for Crowd {}

// the clashes are too many, and that comes before the buffers, which are too short
#[test]
fn too_many(rt: HostRuntime) {
    let mut clashes = [Edge { a: 9, b: 9 }; 4];
    let mut living = [9u8; 4];
    let mut marks = [9u8; 4];
    let answer = cap(&Crowd {}, &mut clashes, &mut living, &mut marks);
    assert_eq!(rt; answer, Err(Refusal::TooLarge));
    assert_eq!(rt; clashes, [Edge { a: 9, b: 9 }; 4]);
    assert_eq!(rt; living, [9; 4]);
    assert_eq!(rt; marks, [9; 4]);
}
