// A stock without numbers.
ghost use Rattle.running.specs.Nothing.{nothing, no_clash};
ghost use Rattle.std.proofs.Common.{◌∙◌, lit<, sym};
ghost use Rattle.std.specs.Prelude.{nat_lt};

use graph::{Listed, Source};

#[derive(Clone, Copy)]
pub struct Nothing {}

impl Source for Nothing {
    ghost graph = { λ _. nothing };

    ghost lawful = { λ _.
        record {
          small = lit< tt;
          both = λ a b. no_clash (nat_lt a 0) (nat_lt b 0) ∙ sym (no_clash (nat_lt b 0) (nat_lt a 0));
          never = λ a. no_clash (nat_lt a 0) (nat_lt a 0);
        } };

    fn size(&self) -> usize {
        0
    }

    fn holds(&self, _c: usize) -> bool {
        false
    }

    fn clashes(&self, _a: usize, _b: usize) -> bool {
        false
    }
}

impl Listed for Nothing {}
