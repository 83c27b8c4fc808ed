// The calls that a string of calls is made of, and their replies.
ghost use Rattle.std.specs.Prelude.{◌≡◌};
ghost use Rattle.calls.specs.Fair.{remaining, reply_of, tried};

use graph::refusal::Refusal;

// A call.
#[derive(Clone, Copy, PartialEq, Eq, Debug)]
pub enum Call {
    Hide(usize),
    Show(usize),
    Order,
    Climb,
    Pull,
    Try,
    PutBack,
    Report,
}

// The eight numbers of a report.
#[derive(Clone, Copy, PartialEq, Eq, Debug)]
pub struct Report {
    // the standing's number
    pub standing: u8,
    // how many cartridges are held
    pub held: usize,
    pub degeneracy: usize,
    // how many cartridges of the order are climbed
    pub climbed: usize,
    // the size of the block
    pub block: usize,
    pub floor: usize,
    pub ceiling: usize,
    // 1 where floor and ceiling meet, and the planner is not loose
    pub proved: u8,
}

// What a call answers.
#[derive(Clone, Copy, PartialEq, Eq, Debug)]
pub enum Reply {
    // taken, and nothing more to say
    Done,
    Refused(Refusal),
    // a climb: so many cartridges are left to climb
    Remaining(usize),
    // a try: yes or no
    Tried(bool),
    Told(Report),
}

// What a call without a value answers.
impl From<Result<(), Refusal>> for Reply {
    ghost from_gives = { λ r x. x ≡ reply_of r };

    fn from(answer: Result<(), Refusal>) -> Self {
        match answer {
            Ok(()) => Reply::Done,
            Err(refusal) => Reply::Refused(refusal),
        }
    }
}

// What a climb answers.
impl From<Result<usize, Refusal>> for Reply {
    ghost from_gives = { λ r x. x ≡ remaining r };

    fn from(answer: Result<usize, Refusal>) -> Self {
        match answer {
            Ok(left) => Reply::Remaining(left),
            Err(refusal) => Reply::Refused(refusal),
        }
    }
}

// What a try answers.
impl From<Result<bool, Refusal>> for Reply {
    ghost from_gives = { λ r x. x ≡ tried r };

    fn from(answer: Result<bool, Refusal>) -> Self {
        match answer {
            Ok(won) => Reply::Tried(won),
            Err(refusal) => Reply::Refused(refusal),
        }
    }
}
