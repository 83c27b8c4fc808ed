// Generated stocks: the trial beside a colouring that tries every drive at every place.
use crate::stocks::stock;
use crate::tried::{drawn, proper};
use graph::Source;
use jobs::JobForm;
use std::alloc::Global;
use std::process::Abort;
use std::test::Fail;
use trials::colour;

fn next(seed: u64) -> u64 {
    seed.wrapping_mul(6364136223846793005)
        .wrapping_add(1442695040888963407)
}

// Stock i: 1 to 9 cartridges, of which each two clash with a chance of 1 to 9 tenths.
fn generated(rt: &impl Abort, heap: Global, i: u64) -> Result<JobForm, Fail> {
    let n = 1 + (i % 9) as usize;
    let tenths = 1 + i / 9 % 9;
    let mut seed = next(next(i));
    let mut clashes = Vec::new(heap);
    for a in 0..n {
        for b in a + 1..n {
            seed = next(seed);
            if (seed >> 33) % 10 < tenths {
                clashes.push((a, b))?;
            }
        }
    }
    stock(rt, heap, n, clashes.as_slice())
}

// Whether no cartridge before c that clashes with it has drive d.
fn fits(form: &JobForm, drives: &[usize], c: usize, d: usize) -> bool {
    for (b, worn) in drives.iter().enumerate() {
        if b < c && *worn == d && form.clashes(b, c) {
            return false;
        }
    }
    true
}

// Whether the cartridges from c on can have drives from 1 to k beside those before c.
fn extends(form: &JobForm, drives: &mut [usize], c: usize, k: usize) -> bool {
    if c >= drives.len() {
        return true;
    }
    for d in 0..k {
        if fits(form, drives, c, d + 1) {
            drives[c] = d + 1;
            if extends(form, drives, c + 1, k) {
                return true;
            }
        }
    }
    false
}

// The trial says yes exactly where there is an assignment, for each number of drives.
fn agree(rt: &impl Abort, form: &JobForm) -> Result<(), Fail> {
    let n = form.size();
    let kernel = drawn(rt, form)?;
    assert!(rt; n <= 16);
    for k in 0..n + 1 {
        let mut drives = [0usize; 16];
        let mut table = [99u16; 12];
        let yes = colour(&kernel, &mut table, k)?;
        assert_eq!(rt;
            yes,
            extends(form, &mut drives[0..n], 0, k),
            "a generated stock"
        );
        if yes {
            proper(rt, form, &table, k);
        } else {
            assert_eq!(rt; table, [99; 12], "a generated stock");
        }
    }
    Ok(())
}

#[test]
fn two_hundred(rt: HostRuntime) -> Result<(), Fail> {
    for i in 0..200 {
        agree(&rt, &generated(&rt, rt.alloc(), i)?)?;
    }
    Ok(())
}
