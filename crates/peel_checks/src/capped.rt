use crate::stocks::{FOUR, RING5, WHEEL5, stock};
use capping::cap;
use graph::Source;
use graph::edge::Edge;
use graph::refusal::Refusal;
use jobs::JobForm;
use std::process::Abort;
use std::test::Fail;

const DIRT: Edge = Edge { a: 99, b: 99 };

// four all clashing, and a tail that is in no triangle
const LED: [(usize, usize); 8] = [
    (0, 1),
    (0, 2),
    (0, 3),
    (1, 2),
    (1, 3),
    (2, 3),
    (3, 4),
    (4, 5),
];

// The edges of the list, before what stood there.
fn expected(clashes: &[(usize, usize)]) -> Result<[Edge; 24], Fail> {
    let mut edges = [DIRT; 24];
    for (edge, (a, b)) in edges.iter_mut().zip(clashes) {
        *edge = Edge {
            a: u16::try_from(*a)?,
            b: u16::try_from(*b)?,
        };
    }
    Ok(edges)
}

// The cap of a stock with these clashes, and the bytes of those in the last community.
fn caps(
    rt: &impl Abort,
    form: &JobForm,
    top: usize,
    clashes: &[(usize, usize)],
    in_last: &[u8],
) -> Result<(), Fail> {
    let mut edges = [DIRT; 24];
    let mut living = [7u8; 24];
    let mut marks = [5u8; 24];
    assert_eq!(rt; cap(form, &mut edges, &mut living, &mut marks), Ok(top));
    let n = form.size();
    assert_eq!(rt; edges, expected(clashes)?);
    assert!(rt; in_last.len() <= 24 && n <= 24);
    let mut lives = [7u8; 24];
    lives[..in_last.len()].copy_from_slice(in_last);
    assert_eq!(rt; living, lives);
    let mut cleared = [5u8; 24];
    cleared[..n].fill(0);
    assert_eq!(rt; marks, cleared);
    Ok(())
}

#[test]
fn worked(rt: HostRuntime) -> Result<(), Fail> {
    let heap = rt.alloc();
    caps(&rt, &stock(&rt, heap, 0, &[])?, 0, &[], &[])?;
    caps(&rt, &stock(&rt, heap, 4, &[])?, 1, &[], &[])?;
    caps(&rt, &stock(&rt, heap, 5, &RING5)?, 2, &RING5, &[1; 5])?;
    caps(&rt, &stock(&rt, heap, 4, &FOUR)?, 4, &FOUR, &[1; 6])?;
    caps(&rt, &stock(&rt, heap, 6, &WHEEL5)?, 3, &WHEEL5, &[1; 10])?;
    caps(
        &rt,
        &stock(&rt, heap, 6, &LED)?,
        4,
        &LED,
        &[1, 1, 1, 1, 1, 1, 0, 0],
    )
}

// no buffer is changed
fn refused(rt: &impl Abort, form: &JobForm, lens: (usize, usize, usize), why: Refusal) {
    let mut edges = [DIRT; 8];
    let mut living = [7u8; 8];
    let mut marks = [5u8; 8];
    let (a, b, c) = lens;
    assert!(rt; a <= 8 && b <= 8 && c <= 8);
    let answer = cap(form, &mut edges[0..a], &mut living[0..b], &mut marks[0..c]);
    assert_eq!(rt; answer, Err(why));
    assert_eq!(rt; edges, [DIRT; 8]);
    assert_eq!(rt; living, [7; 8]);
    assert_eq!(rt; marks, [5; 8]);
}

#[test]
fn short(rt: HostRuntime) -> Result<(), Fail> {
    let form = stock(&rt, rt.alloc(), 5, &RING5)?;
    refused(&rt, &form, (4, 5, 5), Refusal::ShortBuffer);
    refused(&rt, &form, (5, 4, 5), Refusal::ShortBuffer);
    refused(&rt, &form, (5, 5, 4), Refusal::ShortBuffer);
    refused(&rt, &form, (0, 0, 0), Refusal::ShortBuffer);
    let plain = stock(&rt, rt.alloc(), 5, &[])?;
    refused(&rt, &plain, (0, 0, 4), Refusal::ShortBuffer);
    Ok(())
}
