use crate::stocks::{MYCIELSKI11, WHEEL5, ring, stock, whole};
use graph::Source;
use graph::refusal::Refusal;
use jobs::JobForm;
use kernels::Kernel;
use std::alloc::Global;
use std::process::Abort;
use std::test::Fail;
use trials::colour;

const PLACES: [u16; 16] = [0, 1, 2, 3, 4, 5, 6, 7, 8, 9, 10, 11, 12, 13, 14, 15];

// The kernel of all cartridges.
pub fn drawn(rt: &impl Abort, form: &JobForm) -> Result<Kernel, Fail> {
    let n = form.size();
    assert!(rt; n <= 16);
    let mut kernel = Kernel::empty();
    kernel.draw(form, &PLACES[0..n])?;
    Ok(kernel)
}

// Each of the first n has a drive from 1 to k, and no two that clash have the same; later places have 99.
pub fn proper(rt: &impl Abort, form: &JobForm, table: &[u16], k: usize) {
    let n = form.size();
    assert!(rt; n <= table.len());
    assert!(rt; table[n..].iter().all(|d| *d == 99));
    for (a, d) in table[..n].iter().enumerate() {
        assert!(rt; 1 <= *d && *d as usize <= k);
        assert!(rt;
            table[..a]
                .iter()
                .enumerate()
                .all(|(b, e)| !form.clashes(a, b) || e != d)
        );
    }
}

// No in fewer drives than `least`, yes from there on.
fn needs(rt: &impl Abort, form: &JobForm, least: usize) -> Result<(), Fail> {
    let kernel = drawn(rt, form)?;
    for k in 0..20 {
        let mut table = [99u16; 20];
        assert_eq!(rt; colour(&kernel, &mut table, k)?, k >= least);
        if k < least {
            assert_eq!(rt; table, [99; 20]);
        } else {
            proper(rt, form, &table, k);
        }
    }
    Ok(())
}

// rings of odd length need three drives, of even length two
#[test]
fn rings(rt: HostRuntime) -> Result<(), Fail> {
    for n in 3..17 {
        needs(&rt, &ring(&rt, rt.alloc(), n)?, 2 + n % 2)?;
    }
    needs(&rt, &ring(&rt, rt.alloc(), 2)?, 2)
}

#[test]
fn worked(rt: HostRuntime) -> Result<(), Fail> {
    let heap = rt.alloc();
    for n in 0..17 {
        needs(&rt, &whole(&rt, heap, n)?, n)?;
    }
    needs(&rt, &stock(&rt, heap, 9, &[])?, 1)?;
    needs(&rt, &stock(&rt, heap, 6, &WHEEL5)?, 4)?;
    needs(&rt, &stock(&rt, heap, 11, &MYCIELSKI11)?, 4)
}

#[test]
fn refused(rt: HostRuntime) -> Result<(), Fail> {
    let form = ring(&rt, rt.alloc(), 5)?;
    let mut kernel = drawn(&rt, &form)?;
    let mut table = [99u16; 4];
    assert_eq!(rt; colour(&kernel, &mut table, 3), Err(Refusal::ShortBuffer));
    assert_eq!(rt; table, [99; 4]);
    assert_eq!(rt; kernel.draw(&form, &[0; 257]), Err(Refusal::TooWide));
    assert_eq!(rt; kernel.count(), 5);
    assert!(rt; kernel.joined(0, 4));
    kernel.draw(&form, &[0; 256])?;
    assert_eq!(rt; kernel.count(), 256);
    Ok(())
}
