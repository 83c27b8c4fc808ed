// Calls that are refused where the standing takes them.
use crate::stocks::{look, number, path_at, row};
use bounds::ClassBound;
use jobs::JobForm;
use planner::Planner;
use std::test::Fail;

// 4 is hidden, and there is no 5: nothing that can be seen changes
#[test]
fn hide_and_show(rt: HostRuntime) -> Result<(), Fail> {
    for standing in 0..3 {
        let mut planner = path_at(&rt, rt.alloc(), standing)?;
        let before = look(&planner);
        assert_eq!(rt; number(planner.hide(5)), 1);
        assert_eq!(rt; number(planner.show(5)), 1);
        assert_eq!(rt; number(planner.hide(4)), 2);
        assert_eq!(rt; number(planner.show(0)), 2);
        assert_eq!(rt; look(&planner), before);
    }
    Ok(())
}

// 65 that all clash have degeneracy 64, and 64 of them 63
#[test]
fn too_dense(rt: HostRuntime) -> Result<(), Fail> {
    let mut form = JobForm::new(rt.alloc());
    form.fill(&[1; 65])?;
    let mut planner = Planner::open(form, ClassBound {});
    let before = planner.report();
    assert_eq!(rt; number(planner.order()), 4);
    assert_eq!(rt; planner.report(), before);
    assert_eq!(rt; number(planner.block(&mut [0; 64])), 3);
    assert_eq!(rt; number(planner.plan(&mut [row(0, 0); 65])), 3);
    planner.hide(64)?;
    planner.order()?;
    assert_eq!(rt; planner.report().degeneracy, 63);
    assert_eq!(rt; planner.report().ceiling, 64);
    Ok(())
}
