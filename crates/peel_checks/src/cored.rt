use crate::stocks::{FOUR, RING5, TAILED, WHEEL5, stock};
use cores::core;
use graph::refusal::Refusal;
use jobs::JobForm;
use std::process::Abort;
use std::test::Fail;

// Which stay, and which are taken out, each behind the bytes and numbers that stood there.
fn leaves(rt: &impl Abort, form: &JobForm, least: usize, stays: [u8; 9], order: &[u16]) {
    let mut living = [7u8; 9];
    let mut taken = [99u16; 9];
    assert_eq!(rt; core(form, least, &mut living, &mut taken), Ok(order.len()));
    assert_eq!(rt; living, stays);
    let mut due = [99u16; 9];
    assert!(rt; order.len() <= 9);
    due[..order.len()].copy_from_slice(order);
    assert_eq!(rt; taken, due);
}

#[test]
fn worked(rt: HostRuntime) -> Result<(), Fail> {
    let heap = rt.alloc();
    leaves(&rt, &stock(&rt, heap, 0, &[])?, 3, [7; 9], &[]);
    let four = stock(&rt, heap, 4, &FOUR)?;
    leaves(&rt, &four, 3, [1, 1, 1, 1, 7, 7, 7, 7, 7], &[]);
    let wheel = stock(&rt, heap, 6, &WHEEL5)?;
    leaves(&rt, &wheel, 3, [1, 1, 1, 1, 1, 1, 7, 7, 7], &[]);
    let tailed = stock(&rt, heap, 8, &TAILED)?;
    leaves(&rt, &tailed, 0, [1, 1, 1, 1, 1, 1, 1, 1, 7], &[]);
    leaves(&rt, &tailed, 1, [1, 1, 1, 1, 1, 1, 1, 0, 7], &[7]);
    leaves(&rt, &tailed, 2, [1, 1, 1, 1, 1, 0, 0, 0, 7], &[6, 7, 5]);
    Ok(())
}

// at 4 nothing of a wheel stays, nor at 3 of a ring, whatever the order
#[test]
fn emptied(rt: HostRuntime) -> Result<(), Fail> {
    let heap = rt.alloc();
    let mut living = [7u8; 9];
    let mut taken = [99u16; 9];
    let wheel = stock(&rt, heap, 6, &WHEEL5)?;
    assert_eq!(rt; core(&wheel, 4, &mut living, &mut taken), Ok(6));
    assert_eq!(rt; living, [0, 0, 0, 0, 0, 0, 7, 7, 7]);
    let ring = stock(&rt, heap, 5, &RING5)?;
    assert_eq!(rt; core(&ring, 3, &mut living, &mut taken), Ok(5));
    assert_eq!(rt; living, [0, 0, 0, 0, 0, 0, 7, 7, 7]);
    Ok(())
}

#[test]
fn short(rt: HostRuntime) -> Result<(), Fail> {
    let ring = stock(&rt, rt.alloc(), 5, &RING5)?;
    let mut living = [7u8; 5];
    let mut taken = [99u16; 5];
    let why = Err(Refusal::ShortBuffer);
    assert_eq!(rt; core(&ring, 2, &mut living[0..4], &mut taken), why);
    assert_eq!(rt; core(&ring, 2, &mut living, &mut taken[0..4]), why);
    assert_eq!(rt; living, [7; 5]);
    assert_eq!(rt; taken, [99; 5]);
    Ok(())
}
