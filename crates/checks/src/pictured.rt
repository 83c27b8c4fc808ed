use bounds::{Bound, ClassBound, SizeBound};
use jobs::JobForm;
use pictures::{Picture, draw};
use sources::list_form::ListForm;
use std::test::Fail;
use two_part::TwoPartBound;

// a ring of four: bounds on the whole of it
#[test]
fn ring(rt: HostRuntime) -> Result<(), Fail> {
    let mut form = ListForm::new(rt.alloc())?;
    form.fill(&[0, 2, 4, 6, 8], &[1, 3, 0, 2, 1, 3, 0, 2])?;
    let p = draw(&form, &[0, 1, 2, 3])?;
    assert_eq!(rt; p.count(), 4);
    assert_eq!(rt; p.row(0), 0b1010);
    assert_eq!(rt; p.row(3), 0b0101);
    assert_eq!(rt; p.row(70), 0);
    assert_eq!(rt; SizeBound {}.bound(&p, u64::MAX), 4);
    assert_eq!(rt; ClassBound {}.bound(&p, u64::MAX), 2);
    assert_eq!(rt; TwoPartBound(SizeBound {}).bound(&p, u64::MAX), 2);
    assert_eq!(rt;
        TwoPartBound(TwoPartBound(ClassBound {})).bound(&p, 0b0111),
        2
    );
    assert_eq!(rt; TwoPartBound(SizeBound {}).bound(&p, 0), 0);
    Ok(())
}

// 64 that all clash
#[test]
fn whole(rt: HostRuntime) -> Result<(), Fail> {
    let mut form = JobForm::new(rt.alloc());
    form.fill(&[1; 64])?;
    let mut chosen = [0u16; 64];
    for (i, x) in chosen.iter_mut().enumerate() {
        *x = i as u16;
    }
    let p = draw(&form, &chosen)?;
    assert_eq!(rt; p.row(63), u64::MAX >> 1);
    assert_eq!(rt; SizeBound {}.bound(&p, u64::MAX), 64);
    assert_eq!(rt; ClassBound {}.bound(&p, u64::MAX), 64);
    assert_eq!(rt; TwoPartBound(ClassBound {}).bound(&p, u64::MAX), 64);
    assert!(rt; draw(&form, &[0; 65]).is_err());
    let q = draw(&form, &[3, 3, 99])?;
    assert_eq!(rt; q.row(0), 0);
    assert_eq!(rt; Picture::empty().count(), 0);
    Ok(())
}
