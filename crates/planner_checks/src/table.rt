// Which call is taken where, and where it leads.
use crate::stocks::{Small, look, number, path_at, row};
use calls::standing::Operation;
use graph::edge::Edge;
use std::alloc::Global;
use std::process::Abort;
use std::test::Fail;

// makes the call, and answers the number of its refusal, or 0
fn make(planner: &mut Small, call: Operation) -> u8 {
    let mut clashes = [Edge { a: 0, b: 0 }; 5];
    let mut living = [0; 5];
    let mut marks = [0; 5];
    match call {
        Operation::Hide => number(planner.hide(0)),
        Operation::Show => number(planner.show(4)),
        Operation::Order => number(planner.order()),
        Operation::Climb => number(planner.climb()),
        Operation::Cap => number(planner.cap(&mut clashes, &mut living, &mut marks)),
        Operation::Block => number(planner.block(&mut [0; 4])),
        Operation::Plan => number(planner.plan(&mut [row(0, 0); 5])),
        // a report is never refused
        _ => 0,
    }
}

// the call is taken at the standing, and leads to the next
fn taken(
    rt: &impl Abort,
    heap: Global,
    standing: u8,
    call: Operation,
    next: u8,
) -> Result<(), Fail> {
    let mut planner = path_at(rt, heap, standing)?;
    assert_eq!(rt; make(&mut planner, call), 0);
    assert_eq!(rt; planner.report().standing, next);
    Ok(())
}

// the call is refused by 3, and nothing that can be seen changes
fn refused(rt: &impl Abort, heap: Global, standing: u8, call: Operation) -> Result<(), Fail> {
    let mut planner = path_at(rt, heap, standing)?;
    let before = look(&planner);
    assert_eq!(rt; make(&mut planner, call), 3);
    assert_eq!(rt; look(&planner), before);
    Ok(())
}

#[test]
fn at_loose(rt: HostRuntime) -> Result<(), Fail> {
    let heap = rt.alloc();
    taken(&rt, heap, 0, Operation::Hide, 0)?;
    taken(&rt, heap, 0, Operation::Show, 0)?;
    taken(&rt, heap, 0, Operation::Order, 1)?;
    refused(&rt, heap, 0, Operation::Climb)?;
    taken(&rt, heap, 0, Operation::Report, 0)?;
    taken(&rt, heap, 0, Operation::Cap, 0)?;
    refused(&rt, heap, 0, Operation::Block)?;
    refused(&rt, heap, 0, Operation::Plan)
}

#[test]
fn at_ordered(rt: HostRuntime) -> Result<(), Fail> {
    let heap = rt.alloc();
    taken(&rt, heap, 1, Operation::Hide, 0)?;
    taken(&rt, heap, 1, Operation::Show, 0)?;
    taken(&rt, heap, 1, Operation::Order, 1)?;
    taken(&rt, heap, 1, Operation::Climb, 1)?;
    taken(&rt, heap, 1, Operation::Report, 1)?;
    taken(&rt, heap, 1, Operation::Cap, 1)?;
    taken(&rt, heap, 1, Operation::Block, 1)?;
    taken(&rt, heap, 1, Operation::Plan, 1)
}

#[test]
fn at_climbed(rt: HostRuntime) -> Result<(), Fail> {
    let heap = rt.alloc();
    taken(&rt, heap, 2, Operation::Hide, 0)?;
    taken(&rt, heap, 2, Operation::Show, 0)?;
    taken(&rt, heap, 2, Operation::Order, 1)?;
    refused(&rt, heap, 2, Operation::Climb)?;
    taken(&rt, heap, 2, Operation::Report, 2)?;
    taken(&rt, heap, 2, Operation::Cap, 2)?;
    taken(&rt, heap, 2, Operation::Block, 2)?;
    taken(&rt, heap, 2, Operation::Plan, 2)
}
