// What stands in lent buffers: too short they are refused and untouched, longer they are untouched beyond.
use crate::stocks::{Small, four_clashing, number, path_at, ring_of_five, row};
use graph::edge::Edge;
use std::process::Abort;
use std::test::Fail;

fn edge(a: u16, b: u16) -> Edge {
    Edge { a, b }
}

#[test]
fn block(rt: HostRuntime) -> Result<(), Fail> {
    let mut planner = four_clashing(rt.alloc())?;
    assert_eq!(rt; number(planner.block(&mut [])), 3);
    planner.order()?;
    assert_eq!(rt; planner.block(&mut []), Ok(0));
    planner.climb()?;
    planner.climb()?;
    planner.climb()?;
    let mut short = [9; 2];
    assert_eq!(rt; number(planner.block(&mut short)), 7);
    assert_eq!(rt; short, [9, 9]);
    let mut long = [9; 5];
    assert_eq!(rt; planner.block(&mut long), Ok(3));
    assert_eq!(rt; long, [1, 2, 3, 9, 9]);
    Ok(())
}

// 4 is not held, and has a row
#[test]
fn plan(rt: HostRuntime) -> Result<(), Fail> {
    let planner = path_at(&rt, rt.alloc(), 1)?;
    let mut short = [row(9, 9); 4];
    assert_eq!(rt; number(planner.plan(&mut short)), 7);
    assert_eq!(rt; short, [row(9, 9); 4]);
    let mut long = [row(9, 9); 6];
    assert_eq!(rt; planner.plan(&mut long), Ok(()));
    assert_eq!(rt;
        long,
        [
            row(0, 2),
            row(1, 1),
            row(2, 2),
            row(3, 1),
            row(4, 0),
            row(9, 9),
        ]
    );
    assert_eq!(rt; number(path_at(&rt, rt.alloc(), 0)?.plan(&mut [])), 3);
    Ok(())
}

// the cap of a ring of five, where the buffers are long enough
fn capped(rt: &impl Abort, planner: &Small) {
    let mut clashes = [edge(9, 9); 6];
    let mut living = [9; 6];
    let mut marks = [9; 6];
    assert_eq!(rt; planner.cap(&mut clashes, &mut living, &mut marks), Ok(2));
    assert_eq!(rt;
        clashes,
        [
            edge(0, 1),
            edge(0, 4),
            edge(1, 2),
            edge(2, 3),
            edge(3, 4),
            edge(9, 9),
        ]
    );
    assert_eq!(rt; living, [1, 1, 1, 1, 1, 9]);
    assert_eq!(rt; marks, [0, 0, 0, 0, 0, 9]);
}

// loose, ordered and climbed
#[test]
fn cap(rt: HostRuntime) -> Result<(), Fail> {
    let mut planner = ring_of_five(rt.alloc())?;
    capped(&rt, &planner);
    planner.order()?;
    capped(&rt, &planner);
    for _ in 0..5 {
        planner.climb()?;
    }
    capped(&rt, &planner);
    Ok(())
}

// with 0 hidden the other three make two clashes, and without 2 there is none
#[test]
fn cap_of_what_is_held(rt: HostRuntime) -> Result<(), Fail> {
    let mut planner = path_at(&rt, rt.alloc(), 0)?;
    planner.hide(0)?;
    let mut clashes = [edge(9, 9); 3];
    let mut living = [9; 3];
    let mut marks = [9; 5];
    assert_eq!(rt; planner.cap(&mut clashes, &mut living, &mut marks), Ok(2));
    assert_eq!(rt; clashes, [edge(1, 2), edge(2, 3), edge(9, 9)]);
    assert_eq!(rt; living, [1, 1, 9]);
    planner.hide(2)?;
    assert_eq!(rt; planner.cap(&mut [], &mut [], &mut marks), Ok(1));
    planner.hide(1)?;
    planner.hide(3)?;
    assert_eq!(rt; planner.cap(&mut [], &mut [], &mut marks), Ok(0));
    assert_eq!(rt; marks, [0; 5]);
    Ok(())
}

// one too short, the others long enough
#[test]
fn cap_too_short(rt: HostRuntime) -> Result<(), Fail> {
    let planner = ring_of_five(rt.alloc())?;
    let mut clashes = [edge(9, 9); 5];
    let mut living = [9; 5];
    let mut marks = [9; 5];
    let mut fewer = [edge(9, 9); 4];
    let mut few = [9; 4];
    assert_eq!(rt; number(planner.cap(&mut fewer, &mut living, &mut marks)), 7);
    assert_eq!(rt; number(planner.cap(&mut clashes, &mut few, &mut marks)), 7);
    assert_eq!(rt; number(planner.cap(&mut clashes, &mut living, &mut few)), 7);
    assert_eq!(rt; clashes, [edge(9, 9); 5]);
    assert_eq!(rt; living, [9; 5]);
    assert_eq!(rt; marks, [9; 5]);
    assert_eq!(rt; fewer, [edge(9, 9); 4]);
    assert_eq!(rt; few, [9; 4]);
    Ok(())
}
