use crate::stocks::{TAILED, stock};
use graph::refusal::Refusal;
use putback::{lay, put_back};
use std::test::Fail;

// the ring has drives, 7 is by itself: then 5, 7 and 6 come back
#[test]
fn tailed(rt: HostRuntime) -> Result<(), Fail> {
    let form = stock(&rt, rt.alloc(), 8, &TAILED)?;
    let mut colours = [99u16; 9];
    lay(&[0, 1, 2, 3, 4], &[1, 2, 1, 2, 3, 77], &mut colours)?;
    assert_eq!(rt; colours, [1, 2, 1, 2, 3, 99, 99, 99, 99]);
    put_back(&form, &[6, 7, 5], &mut colours)?;
    assert_eq!(rt; colours, [1, 2, 1, 2, 3, 2, 1, 1, 99]);
    lay(&[4, 0], &[1, 3], &mut colours)?;
    put_back(&form, &[6, 7, 5], &mut colours)?;
    assert_eq!(rt; colours, [3, 2, 1, 2, 1, 1, 2, 1, 99]);
    Ok(())
}

#[test]
fn refused(rt: HostRuntime) -> Result<(), Fail> {
    let form = stock(&rt, rt.alloc(), 8, &TAILED)?;
    let mut colours = [9u16; 8];
    assert_eq!(rt; lay(&[0, 1], &[1], &mut colours), Err(Refusal::ShortBuffer));
    assert_eq!(rt;
        lay(&[0, 8], &[1, 2], &mut colours),
        Err(Refusal::OutOfRange)
    );
    assert_eq!(rt;
        put_back(&form, &[6], &mut colours[0..7]),
        Err(Refusal::ShortBuffer)
    );
    assert_eq!(rt;
        put_back(&form, &[6, 8], &mut colours),
        Err(Refusal::OutOfRange)
    );
    assert_eq!(rt; colours, [9; 8]);
    Ok(())
}
