// The ring of five from its opening to a proved report, with every refusal on the way.
use crate::played::{LATE, plays, told};
use calls::call::{Call, Reply};
use graph::refusal::Refusal;
use sources::list_form::ListForm;
use std::alloc::Global;
use std::process::Abort;
use std::test::Fail;

fn ring_of_five(heap: Global) -> Result<ListForm, Refusal> {
    ListForm::filled(heap, &[0, 2, 4, 6, 8, 10], &[1, 4, 0, 2, 1, 3, 2, 4, 0, 3])
}

#[test]
fn loose(rt: HostRuntime) -> Result<(), Fail> {
    let heap = rt.alloc();
    plays(
        &rt,
        heap,
        ring_of_five(heap)?,
        &[
            Call::Climb,
            Call::Pull,
            Call::Try,
            Call::PutBack,
            Call::Hide(5),
            Call::Show(5),
            Call::Show(0),
            Call::Hide(2),
            Call::Hide(2),
            Call::Report,
            Call::Show(2),
            Call::Report,
        ],
        &[
            LATE,
            LATE,
            LATE,
            Reply::Refused(Refusal::NothingPulled),
            Reply::Refused(Refusal::OutOfRange),
            Reply::Refused(Refusal::OutOfRange),
            Reply::Refused(Refusal::NotSo),
            Reply::Done,
            Reply::Refused(Refusal::NotSo),
            told(&rt, [0, 4, 0, 0, 0, 0, 4, 0]),
            Reply::Done,
            told(&rt, [0, 5, 0, 0, 0, 0, 5, 0]),
        ],
    )
}

#[test]
fn climbed(rt: HostRuntime) -> Result<(), Fail> {
    let heap = rt.alloc();
    plays(
        &rt,
        heap,
        ring_of_five(heap)?,
        &[
            Call::Order,
            Call::PutBack,
            Call::Report,
            Call::Climb,
            Call::Climb,
            Call::Report,
            Call::Climb,
            Call::Climb,
            Call::Pull,
            Call::Climb,
            Call::Climb,
            Call::Try,
            Call::Report,
        ],
        &[
            Reply::Done,
            Reply::Refused(Refusal::NothingPulled),
            told(&rt, [1, 5, 2, 0, 0, 0, 3, 0]),
            Reply::Remaining(4),
            Reply::Remaining(3),
            told(&rt, [1, 5, 2, 2, 2, 2, 3, 0]),
            Reply::Remaining(2),
            Reply::Remaining(1),
            LATE,
            Reply::Remaining(0),
            LATE,
            LATE,
            told(&rt, [2, 5, 2, 5, 2, 2, 3, 0]),
        ],
    )
}

// the calls that climb a ring of five
const UP: [Call; 6] = [
    Call::Order,
    Call::Climb,
    Call::Climb,
    Call::Climb,
    Call::Climb,
    Call::Climb,
];

// the string of those calls and more, and all replies but the first six
fn after_climbs(
    rt: &impl Abort,
    heap: Global,
    calls: &[Call],
    replies: &[Reply],
) -> Result<(), Fail> {
    let mut all = UP.to_vec(heap)?;
    all.extend_from_slice(calls)?;
    let mut due = [Reply::Done].to_vec(heap)?;
    for left in (0..5).rev() {
        due.push(Reply::Remaining(left))?;
    }
    due.extend_from_slice(replies)?;
    plays(
        rt,
        heap,
        ring_of_five(heap)?,
        all.as_slice(),
        due.as_slice(),
    )
}

// a no proves the report; giving up keeps the floor, and the next try says yes
#[test]
fn given_up(rt: HostRuntime) -> Result<(), Fail> {
    after_climbs(
        &rt,
        rt.alloc(),
        &[
            Call::Pull,
            Call::Pull,
            Call::Order,
            Call::Hide(0),
            Call::Show(9),
            Call::Climb,
            Call::Report,
            Call::Try,
            Call::Report,
            Call::PutBack,
            Call::Report,
            Call::PutBack,
            Call::Pull,
            Call::Try,
            Call::Try,
        ],
        &[
            Reply::Done,
            LATE,
            LATE,
            LATE,
            LATE,
            LATE,
            told(&rt, [3, 5, 2, 5, 2, 2, 3, 0]),
            Reply::Tried(false),
            told(&rt, [3, 5, 2, 5, 2, 3, 3, 1]),
            Reply::Done,
            told(&rt, [2, 5, 2, 5, 2, 3, 3, 1]),
            Reply::Refused(Refusal::NothingPulled),
            Reply::Done,
            Reply::Tried(true),
            LATE,
        ],
    )
}

// the way to the end, and a hide that begins again
#[test]
fn closed(rt: HostRuntime) -> Result<(), Fail> {
    after_climbs(
        &rt,
        rt.alloc(),
        &[
            Call::Pull,
            Call::Try,
            Call::Try,
            Call::Report,
            Call::PutBack,
            Call::Report,
            Call::Try,
            Call::Pull,
            Call::Climb,
            Call::PutBack,
            Call::Hide(2),
            Call::Report,
            Call::Order,
            Call::Report,
        ],
        &[
            Reply::Done,
            Reply::Tried(false),
            Reply::Tried(true),
            told(&rt, [4, 5, 2, 5, 2, 3, 3, 1]),
            Reply::Done,
            told(&rt, [5, 5, 2, 5, 2, 3, 3, 1]),
            LATE,
            LATE,
            LATE,
            Reply::Refused(Refusal::NothingPulled),
            Reply::Done,
            told(&rt, [0, 4, 0, 0, 0, 0, 4, 0]),
            Reply::Done,
            told(&rt, [1, 4, 1, 0, 0, 0, 2, 0]),
        ],
    )
}
