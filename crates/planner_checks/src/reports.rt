// The eight numbers of a report.
use crate::stocks::{eight, four_clashing, number, path_at, ring_of_five, ring_of_four};
use bounds::ClassBound;
use planner::Planner;
use sources::list_form::ListForm;
use std::test::Fail;

// block and plan do not meet
#[test]
fn five_in_a_ring(rt: HostRuntime) -> Result<(), Fail> {
    let mut planner = ring_of_five(rt.alloc())?;
    assert_eq!(rt; eight(&planner), [0, 5, 0, 0, 0, 0, 5, 0]);
    planner.order()?;
    assert_eq!(rt; eight(&planner), [1, 5, 2, 0, 0, 0, 3, 0]);
    assert_eq!(rt; planner.climb(), Ok(4));
    assert_eq!(rt; planner.climb(), Ok(3));
    assert_eq!(rt; planner.climb(), Ok(2));
    assert_eq!(rt; planner.climb(), Ok(1));
    assert_eq!(rt; planner.climb(), Ok(0));
    assert_eq!(rt; eight(&planner), [2, 5, 2, 5, 2, 2, 3, 0]);
    Ok(())
}

#[test]
fn one_hidden(rt: HostRuntime) -> Result<(), Fail> {
    let mut planner = ring_of_five(rt.alloc())?;
    planner.hide(2)?;
    assert_eq!(rt; eight(&planner), [0, 4, 0, 0, 0, 0, 4, 0]);
    planner.order()?;
    assert_eq!(rt; eight(&planner), [1, 4, 1, 0, 0, 0, 2, 0]);
    planner.climb()?;
    planner.show(2)?;
    assert_eq!(rt; eight(&planner), [0, 5, 0, 0, 0, 0, 5, 0]);
    Ok(())
}

// proved before all is climbed
#[test]
fn four_in_a_ring(rt: HostRuntime) -> Result<(), Fail> {
    let mut planner = ring_of_four(rt.alloc())?;
    planner.order()?;
    assert_eq!(rt; eight(&planner), [1, 4, 2, 0, 0, 0, 2, 0]);
    planner.climb()?;
    assert_eq!(rt; eight(&planner), [1, 4, 2, 1, 1, 1, 2, 0]);
    planner.climb()?;
    assert_eq!(rt; eight(&planner), [1, 4, 2, 2, 2, 2, 2, 1]);
    Ok(())
}

#[test]
fn four_that_clash(rt: HostRuntime) -> Result<(), Fail> {
    let mut planner = four_clashing(rt.alloc())?;
    planner.order()?;
    planner.climb()?;
    planner.climb()?;
    planner.climb()?;
    assert_eq!(rt; eight(&planner), [1, 4, 3, 3, 3, 3, 4, 0]);
    planner.climb()?;
    assert_eq!(rt; eight(&planner), [2, 4, 3, 4, 4, 4, 4, 1]);
    Ok(())
}

#[test]
fn nothing_held(rt: HostRuntime) -> Result<(), Fail> {
    let mut empty = Planner::open(ListForm::new(rt.alloc())?, ClassBound {});
    empty.order()?;
    assert_eq!(rt; eight(&empty), [2, 0, 0, 0, 0, 0, 0, 1]);
    assert_eq!(rt; number(empty.climb()), 3);
    let form = ListForm::filled(rt.alloc(), &[0, 1, 2], &[1, 0])?;
    let mut hidden = Planner::open(form, ClassBound {});
    hidden.hide(1)?;
    hidden.hide(0)?;
    hidden.order()?;
    assert_eq!(rt; eight(&hidden), [2, 0, 0, 0, 0, 0, 0, 1]);
    Ok(())
}

// an order begins again, a hide leaves neither order nor block nor plan
#[test]
fn begun_again(rt: HostRuntime) -> Result<(), Fail> {
    let mut planner = path_at(&rt, rt.alloc(), 2)?;
    assert_eq!(rt; eight(&planner), [2, 4, 1, 4, 2, 2, 2, 1]);
    planner.order()?;
    assert_eq!(rt; eight(&planner), [1, 4, 1, 0, 0, 0, 2, 0]);
    assert_eq!(rt; planner.block(&mut []), Ok(0));
    planner.climb()?;
    planner.hide(0)?;
    assert_eq!(rt; eight(&planner), [0, 3, 0, 0, 0, 0, 3, 0]);
    assert_eq!(rt; number(planner.block(&mut [0; 5])), 3);
    assert_eq!(rt; number(planner.climb()), 3);
    Ok(())
}
