use graph::refusal::{Part, Refusal};
use graph::{Listed, Source};
use sources::list_form::ListForm;
use std::process::Abort;
use std::test::Fail;

// a path 0 - 1 - 2, and 3 by itself
#[test]
fn path(rt: HostRuntime) -> Result<(), Fail> {
    let mut form = ListForm::new(rt.alloc())?;
    assert_eq!(rt; form.size(), 0);
    assert!(rt; !form.holds(0));
    form.fill(&[0, 1, 3, 4, 4], &[1, 0, 2, 1])?;
    assert_eq!(rt; form.size(), 4);
    assert!(rt; form.holds(3));
    assert!(rt; !form.holds(4));
    assert_eq!(rt; form.degree(1), 2);
    assert_eq!(rt; form.neighbour(1, 0), Some(0));
    assert_eq!(rt; form.neighbour(1, 1), Some(2));
    assert_eq!(rt; form.neighbour(1, 2), None);
    assert_eq!(rt; form.degree(4), 0);
    assert!(rt; form.clashes(2, 1));
    assert!(rt; !form.clashes(2, 0));
    assert!(rt; !form.clashes(4, 1));
    Ok(())
}

fn bad(
    rt: &impl Abort,
    form: &mut ListForm,
    offsets: &[u16],
    neighbours: &[u16],
    part: Part,
    index: usize,
) {
    assert_eq!(rt;
        form.fill(offsets, neighbours),
        Err(Refusal::BadList { part, index })
    );
}

#[test]
fn bad_offsets(rt: HostRuntime) -> Result<(), Fail> {
    let mut form = ListForm::new(rt.alloc())?;
    form.fill(&[0, 1, 2], &[1, 0])?;
    bad(&rt, &mut form, &[], &[], Part::Offsets, 0);
    bad(&rt, &mut form, &[1], &[0], Part::Offsets, 0);
    bad(&rt, &mut form, &[0], &[0], Part::Offsets, 0);
    bad(&rt, &mut form, &[0, 2, 1, 2], &[1, 0], Part::Offsets, 2);
    bad(&rt, &mut form, &[0, 1, 1], &[1, 0], Part::Offsets, 2);
    bad(&rt, &mut form, &[0, 1, 3], &[1, 0], Part::Offsets, 2);
    assert!(rt; form.clashes(0, 1));
    Ok(())
}

#[test]
fn bad_neighbours(rt: HostRuntime) -> Result<(), Fail> {
    let mut form = ListForm::new(rt.alloc())?;
    form.fill(&[0, 1, 2], &[1, 0])?;
    bad(&rt, &mut form, &[0, 1, 1], &[1], Part::Neighbours, 0);
    bad(&rt, &mut form, &[0, 1, 3], &[1, 0, 0], Part::Neighbours, 2);
    bad(&rt, &mut form, &[0, 1, 2], &[2, 0], Part::Neighbours, 0);
    bad(&rt, &mut form, &[0, 1, 2], &[1, 1], Part::Neighbours, 0);
    bad(
        &rt,
        &mut form,
        &[0, 2, 3, 4],
        &[2, 1, 0, 0],
        Part::Neighbours,
        1,
    );
    assert!(rt; form.clashes(0, 1));
    Ok(())
}

#[test]
fn too_large(rt: HostRuntime) -> Result<(), Fail> {
    let mut form = ListForm::new(rt.alloc())?;
    assert_eq!(rt; form.fill(&[0; 1026], &[]), Err(Refusal::TooLarge));
    assert_eq!(rt; form.fill(&[1; 1026], &[0; 32769]), Err(Refusal::TooLarge));
    assert_eq!(rt; form.fill(&[], &[0; 32769]), Err(Refusal::TooLarge));
    form.fill(&[0; 1025], &[])?;
    assert_eq!(rt; form.size(), 1024);
    Ok(())
}
