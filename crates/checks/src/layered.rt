use graph::refusal::Refusal;
use graph::{Listed, Source};
use jobs::JobForm;
use layers::HideLayer;
use sources::list_form::ListForm;
use std::test::Fail;

// jobs {0, 1}, {1}, {2}: one clash, 0 with 1
#[test]
fn shared_jobs(rt: HostRuntime) -> Result<(), Fail> {
    let mut form = JobForm::new(rt.alloc());
    form.fill(&[0b011, 0b010, 0b100])?;
    assert!(rt; form.clashes(0, 1));
    assert!(rt; !form.clashes(0, 2));
    assert!(rt; !form.clashes(1, 1));
    assert_eq!(rt; form.degree(1), 1);
    assert_eq!(rt; form.neighbour(1, 0), Some(0));
    assert_eq!(rt; form.neighbour(1, 1), None);
    assert_eq!(rt; form.degree(2), 0);
    assert_eq!(rt; form.fill(&[1; 182]), Err(Refusal::TooLarge));
    assert_eq!(rt; form.fill(&[0; 1025]), Err(Refusal::TooLarge));
    assert_eq!(rt; form.size(), 3);
    form.fill(&[1; 181])?;
    assert_eq!(rt; form.degree(180), 180);
    Ok(())
}

// two layers on a triangle
#[test]
fn piled(rt: HostRuntime) -> Result<(), Fail> {
    let mut form = ListForm::new(rt.alloc())?;
    form.fill(&[0, 2, 4, 6], &[1, 2, 0, 2, 0, 1])?;
    let mut lower = HideLayer::over(form);
    lower.hide(1)?;
    assert_eq!(rt; lower.hide(1), Err(Refusal::NotSo));
    assert_eq!(rt; lower.hide(3), Err(Refusal::OutOfRange));
    assert_eq!(rt; lower.show(0), Err(Refusal::NotSo));
    assert_eq!(rt; lower.neighbour(0, 0), Some(2));
    assert_eq!(rt; lower.neighbour(0, 1), None);
    let mut upper = HideLayer::over(lower);
    assert_eq!(rt; upper.show(1), Err(Refusal::NotSo));
    assert_eq!(rt; upper.degree(2), 1);
    upper.hide(0)?;
    assert_eq!(rt; upper.degree(2), 0);
    assert!(rt; !upper.clashes(0, 2));
    upper.show(0)?;
    assert_eq!(rt; upper.neighbour(2, 0), Some(0));
    assert!(rt; !upper.holds(1));
    Ok(())
}
