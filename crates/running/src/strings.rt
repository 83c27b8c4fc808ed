// Strings of calls.
ghost use Rattle.std.specs.Prelude.{◌≡◌, ◌+◌, ◌≤◌, length, IfOk, vec_len, vec_capacity};
ghost use Rattle.calls.specs.Laws.{Run};
ghost use Rattle.planner.specs.Explains.{Serves};
ghost use Rattle.running.specs.Played.{Matched, Carried};

use crate::nothing::Nothing;
use crate::spare::{give_slip, open_spare, take_slip};
use bounds::{Bound, SizeBound};
use calls::call::{Call, Reply};
use graph::refusal::Refusal;
use graph::{Listed, Source};
use planner::{Planner, Slip};
use std::alloc::{AllocError, Global};

// A pull: its slip goes to the spare planner.
fn pull<S: Listed + Drop, B: Bound + Drop>(
    planner: &mut Planner<S, B>,
    spare: &mut Planner<Nothing, SizeBound>,
) -> Reply
    requires { Matched S.Source.graph planner.old spare.old }
    ensures serves { Serves S.Source.graph planner.old Call.Pull result planner.new }
    ensures matched { Matched S.Source.graph planner.new spare.new }
{
    match planner.pull() {
        Ok(slip) => {
            give_slip(spare, slip);
            Reply::Done
        }
        Err(e) => Reply::Refused(e),
    }
}

// A put back with the slip at hand. The spare planner gives another one for it.
fn put_back<S: Listed + Drop, B: Bound + Drop>(
    planner: &mut Planner<S, B>,
    spare: &mut Planner<Nothing, SizeBound>,
    slip: Slip,
) -> (Reply, Slip)
    requires { Matched S.Source.graph planner.old spare.old }
    ensures serves { Serves S.Source.graph planner.old Call.PutBack result.0 planner.new }
    ensures matched { Matched S.Source.graph planner.new spare.new }
{
    match planner.put_back(slip) {
        Ok(()) => (Reply::Done, take_slip(spare)),
        Err((e, back)) => (Reply::Refused(e), back),
    }
}

// Any call. A slip is at hand before and after it.
fn answer<S: Listed + Drop, B: Bound + Drop>(
    planner: &mut Planner<S, B>,
    spare: &mut Planner<Nothing, SizeBound>,
    slip: Slip,
    call: Call,
) -> (Reply, Slip)
    requires { Matched S.Source.graph planner.old spare.old }
    ensures serves { Serves S.Source.graph planner.old call result.0 planner.new }
    ensures matched { Matched S.Source.graph planner.new spare.new }
{
    match call {
        Call::Hide(c) => (planner.hide(c).into(), slip),
        Call::Show(c) => (planner.show(c).into(), slip),
        Call::Order => (planner.order().into(), slip),
        Call::Climb => (planner.climb().into(), slip),
        Call::Pull => (pull(planner, spare), slip),
        Call::Try => (planner.try_floor().into(), slip),
        Call::PutBack => put_back(planner, spare, slip),
        Call::Report => (Reply::Told(planner.report()), slip),
    }
}

// Every call in turn, each reply behind those that stand in `replies`, which has room for them. A slip is at hand
// before and after them.
fn carry_out<S: Listed + Drop, B: Bound + Drop>(
    planner: &mut Planner<S, B>,
    spare: &mut Planner<Nothing, SizeBound>,
    slip: Slip,
    calls: &[Call],
    replies: &mut Vec<Reply>,
) -> Slip
    requires ready { Matched S.Source.graph planner.old spare.old }
    requires room { vec_len replies.old + length calls.now ≤ vec_capacity replies.old }
    ensures carried { Carried S.Source.graph planner.old calls.now replies.old.items replies.new.items planner.new }
    ensures matched { Matched S.Source.graph planner.new spare.new }
{
    let mut slip = slip;
    for call in calls {
        let (reply, back) = answer(planner, spare, slip, *call);
        slip = back;
        replies.push_reserved(reply);
    }
    slip
}

// Spends the slip that is at hand at the end.
fn spend<S: Listed + Drop, B: Bound + Drop>(
    planner: &mut Planner<S, B>,
    spare: &mut Planner<Nothing, SizeBound>,
    slip: Slip,
)
    requires { Matched S.Source.graph planner.old spare.old }
{
    if let Err((_, back)) = planner.put_back(slip) {
        give_slip(spare, back);
    }
}

/// Opens a planner and makes the calls of the string, one after another. Answers their replies. Want of memory for
/// these is its only refusal.
pub fn run<S: Listed + Drop, B: Bound + Drop>(
    heap: Global,
    source: S,
    bound: B,
    calls: &[Call],
) -> Result<Vec<Reply>, AllocError>
    ensures { IfOk result (λ v. Run (S.Source.graph source) calls.now v.items) }
{
    let mut replies = Vec::new(heap);
    replies.reserve(calls.len())?;
    let mut planner = Planner::open(source, bound);
    let mut spare = open_spare();
    let slip = take_slip(&mut spare);
    let back = carry_out(&mut planner, &mut spare, slip, calls, &mut replies);
    spend(&mut planner, &mut spare, back);
    Ok(replies)
}
