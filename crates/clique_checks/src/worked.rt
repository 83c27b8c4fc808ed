use crate::exhaustive::is_clique;
use bounds::{Bound, ClassBound, SizeBound};
use climb::{climb_all, climb_step};
use graph::refusal::Refusal;
use pictures::draw;
use sources::list_form::ListForm;
use std::process::Abort;
use std::test::Fail;
use two_part::TwoPartBound;

// The first `count` of the block are `most` vertices that all clash.
fn holds(
    rt: &impl Abort,
    form: &ListForm,
    block: &[u16; 64],
    count: usize,
    most: usize,
) -> Result<(), Fail> {
    assert_eq!(rt; count, most);
    assert!(rt; count < 64);
    let p = draw(form, &block[0..count])?;
    assert!(rt; is_clique(&p, (1 << count) - 1));
    Ok(())
}

// Each climb through `order` ends with `most` vertices that all clash.
fn climbs<B: Bound>(
    rt: &impl Abort,
    bound: &B,
    form: &ListForm,
    order: &[u16],
    most: usize,
) -> Result<(), Fail> {
    let mut block = [0u16; 64];
    let count = climb_all(form, bound, order, &mut block)?;
    holds(rt, form, &block, count, most)?;
    let count = listed_climb::climb_all(form, bound, order, &mut block)?;
    holds(rt, form, &block, count, most)
}

// The same with each bound.
fn climbs_by_each(
    rt: &impl Abort,
    form: &ListForm,
    order: &[u16],
    most: usize,
) -> Result<(), Fail> {
    climbs(rt, &SizeBound {}, form, order, most)?;
    climbs(rt, &ClassBound {}, form, order, most)?;
    climbs(rt, &TwoPartBound(ClassBound {}), form, order, most)
}

// a ring of five, and the same with a hub
#[test]
fn rings(rt: HostRuntime) -> Result<(), Fail> {
    let mut form = ListForm::new(rt.alloc())?;
    form.fill(&[0, 2, 4, 6, 8, 10], &[1, 4, 0, 2, 1, 3, 2, 4, 0, 3])?;
    climbs_by_each(&rt, &form, &[0, 1, 2, 3, 4], 2)?;
    form.fill(
        &[0, 3, 6, 9, 12, 15, 20],
        &[1, 4, 5, 0, 2, 5, 1, 3, 5, 2, 4, 5, 0, 3, 5, 0, 1, 2, 3, 4],
    )?;
    climbs_by_each(&rt, &form, &[0, 1, 2, 3, 4, 5], 3)?;
    climbs_by_each(&rt, &form, &[5, 4, 3, 2, 1, 0], 3)
}

// nothing, one, four that all clash
#[test]
fn smallest(rt: HostRuntime) -> Result<(), Fail> {
    let mut form = ListForm::new(rt.alloc())?;
    climbs_by_each(&rt, &form, &[], 0)?;
    form.fill(&[0, 0], &[])?;
    climbs_by_each(&rt, &form, &[0], 1)?;
    form.fill(&[0, 3, 6, 9, 12], &[1, 2, 3, 0, 2, 3, 0, 1, 3, 0, 1, 2])?;
    climbs_by_each(&rt, &form, &[2, 0, 1, 3], 4)
}

// a step that is refused leaves the block
#[test]
fn past_the_end(rt: HostRuntime) -> Result<(), Fail> {
    let form = ListForm::new(rt.alloc())?;
    let mut block = [7u16; 64];
    let r = climb_step(&form, &ClassBound {}, &[], 0, &mut block, 0);
    assert_eq!(rt; r, Err(Refusal::OutOfRange));
    assert_eq!(rt; block[0], 7);
    Ok(())
}
