// Strings of calls, and what they are to answer.
use bounds::ClassBound;
use calls::call::{Call, Reply, Report};
use graph::refusal::Refusal;
use graph::{Listed, Source};
use running::run;
use std::alloc::Global;
use std::process::Abort;
use std::test::Fail;

// the eight numbers
pub fn told(rt: &impl Abort, n: [usize; 8]) -> Reply {
    assert!(rt; n[0] < 6);
    assert!(rt; n[7] < 2);
    Reply::Told(Report {
        standing: n[0] as u8,
        held: n[1],
        degeneracy: n[2],
        climbed: n[3],
        block: n[4],
        floor: n[5],
        ceiling: n[6],
        proved: n[7] as u8,
    })
}

// the string gives just these replies
pub fn plays<S: Listed + Drop>(
    rt: &impl Abort,
    heap: Global,
    source: S,
    calls: &[Call],
    replies: &[Reply],
) -> Result<(), Fail> {
    let got = run(heap, source, ClassBound {}, calls)?;
    assert_eq!(rt; got.len(), replies.len());
    for (i, reply) in got.iter().enumerate() {
        assert!(rt; i < replies.len());
        assert_eq!(rt; *reply, replies[i]);
    }
    Ok(())
}

// the last reply of a string
pub fn last<S: Listed + Drop>(heap: Global, source: S, calls: &[Call]) -> Result<Reply, Fail> {
    let got = run(heap, source, ClassBound {}, calls)?;
    match got.last() {
        Some(reply) => Ok(*reply),
        None => Err(Fail::new("no reply")),
    }
}

pub const LATE: Reply = Reply::Refused(Refusal::OutOfTurn);
