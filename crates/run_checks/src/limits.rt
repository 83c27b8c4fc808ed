// Stocks at the limits.
use crate::played::last;
use calls::call::{Call, Reply};
use graph::refusal::Refusal;
use jobs::JobForm;
use sources::list_form::ListForm;
use std::alloc::Global;
use std::test::Fail;

// 64 that all clash are ordered, 65 are too dense
#[test]
fn dense(rt: HostRuntime) -> Result<(), Fail> {
    let heap = rt.alloc();
    let mut form = JobForm::new(heap);
    form.fill(&[1; 64])?;
    assert_eq!(rt; last(heap, form, &[Call::Order])?, Reply::Done);
    let mut large = JobForm::new(heap);
    large.fill(&[1; 65])?;
    assert_eq!(rt;
        last(heap, large, &[Call::Order])?,
        Reply::Refused(Refusal::TooDense)
    );
    Ok(())
}

// a ring of n numbers
fn ring(heap: Global, n: u16) -> Result<ListForm, Fail> {
    let mut offsets = [0].to_vec(heap)?;
    let mut neighbours = [1, n.saturating_sub(1)].to_vec(heap)?;
    for c in 1..n {
        let before = c.saturating_sub(1);
        let after = c.saturating_add(1);
        offsets.push(c.saturating_mul(2))?;
        neighbours.push(if after == n { 0 } else { before })?;
        neighbours.push(if after == n { before } else { after })?;
    }
    offsets.push(n.saturating_mul(2))?;
    Ok(ListForm::filled(heap, offsets.as_slice(), neighbours.as_slice())?)
}

// an order, n climbs and a pull
fn pulled(heap: Global, n: u16) -> Result<Reply, Fail> {
    let mut calls = [Call::Order].to_vec(heap)?;
    for _ in 0..n {
        calls.push(Call::Climb)?;
    }
    calls.push(Call::Pull)?;
    last(heap, ring(heap, n)?, calls.as_slice())
}

// a ring is its own kernel: of 256 it is pulled, of 257 it is too wide
#[test]
fn wide(rt: HostRuntime) -> Result<(), Fail> {
    assert_eq!(rt; pulled(rt.alloc(), 256)?, Reply::Done);
    assert_eq!(rt; pulled(rt.alloc(), 257)?, Reply::Refused(Refusal::TooWide));
    Ok(())
}
