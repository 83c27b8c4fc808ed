ghost use Rattle.std.specs.Prelude.{◌≡◌};
ghost use Rattle.graph.specs.Refusals.{number, part_number};
ghost use Rattle.graph.specs.declared.refusal.Refusal.TheVariants.{NoMemory};

use std::alloc::AllocError;

// Which of the two lists of a list form is meant.
#[derive(Clone, Copy, PartialEq, Eq, Debug)]
pub enum Part {
    Offsets,
    Neighbours,
}

// Offsets are part 0, neighbours part 1.
impl From<Part> for u8 {
    ghost from_gives = { λ p n. n ≡ part_number p };

    fn from(part: Part) -> Self {
        match part {
            Part::Offsets => 0,
            Part::Neighbours => 1,
        }
    }
}

// Why a call was refused.
#[derive(Clone, Copy, PartialEq, Eq, Debug)]
pub enum Refusal {
    // a number is not below the size
    OutOfRange,
    // what is to be hidden is not held, or what is to be shown is not hidden here
    NotSo,
    // the standing does not take the call
    OutOfTurn,
    // the degeneracy is above 63
    TooDense,
    // the kernel has more than 256 vertices
    TooWide,
    // nothing is pulled, so there is nothing to put back
    NothingPulled,
    // a buffer is shorter than what goes into it
    ShortBuffer,
    // the first entry of a list form that breaks a rule
    BadList { part: Part, index: usize },
    // a line of a sheet breaks its form
    BadLine,
    // a clash is not smaller number first, or not above the one before it
    Unordered,
    // more vertices, clashes or neighbours than a stock may have
    TooLarge,
    // there are more or fewer clashes than were announced or counted
    Miscounted,
    // no memory is left
    NoMemory,
}

// The number that stands for the refusal.
impl From<Refusal> for u8 {
    ghost from_gives = { λ x n. n ≡ number x };

    fn from(refusal: Refusal) -> Self {
        match refusal {
            Refusal::OutOfRange => 1,
            Refusal::NotSo => 2,
            Refusal::OutOfTurn => 3,
            Refusal::TooDense => 4,
            Refusal::TooWide => 5,
            Refusal::NothingPulled => 6,
            Refusal::ShortBuffer => 7,
            Refusal::BadList { .. } => 8,
            Refusal::BadLine => 9,
            Refusal::Unordered => 10,
            Refusal::TooLarge => 11,
            Refusal::Miscounted => 12,
            Refusal::NoMemory => 99,
        }
    }
}

impl From<AllocError> for Refusal {
    ghost from_gives = { λ _ x. x ≡ NoMemory };

    fn from(_error: AllocError) -> Self {
        Self::NoMemory
    }
}
