// Small stocks: each clash is a job of its own.
use jobs::JobForm;
use std::alloc::Global;
use std::process::Abort;
use std::test::Fail;

pub const RING5: [(usize, usize); 5] = [(0, 1), (0, 4), (1, 2), (2, 3), (3, 4)];

pub const FOUR: [(usize, usize); 6] = [(0, 1), (0, 2), (0, 3), (1, 2), (1, 3), (2, 3)];

// a ring of five and a hub
pub const WHEEL5: [(usize, usize); 10] = [
    (0, 1),
    (0, 4),
    (0, 5),
    (1, 2),
    (1, 5),
    (2, 3),
    (2, 5),
    (3, 4),
    (3, 5),
    (4, 5),
];

// ring of five, 5 on 0, 6 on 5
pub const TAILED: [(usize, usize); 7] = [(0, 1), (0, 4), (0, 5), (1, 2), (2, 3), (3, 4), (5, 6)];

// no three all clash, and three drives do not suffice
pub const MYCIELSKI11: [(usize, usize); 20] = [
    (0, 1),
    (0, 4),
    (1, 2),
    (2, 3),
    (3, 4),
    (5, 1),
    (5, 4),
    (6, 0),
    (6, 2),
    (7, 1),
    (7, 3),
    (8, 2),
    (8, 4),
    (9, 0),
    (9, 3),
    (10, 5),
    (10, 6),
    (10, 7),
    (10, 8),
    (10, 9),
];

// n cartridges in a ring.
pub fn ring(rt: &impl Abort, heap: Global, n: usize) -> Result<JobForm, Fail> {
    let mut clashes = Vec::new(heap);
    for a in 1..n {
        clashes.push((a - 1, a))?;
    }
    if n > 2 {
        clashes.push((n - 1, 0))?;
    }
    stock(rt, heap, n, clashes.as_slice())
}

// n cartridges that all clash.
pub fn whole(rt: &impl Abort, heap: Global, n: usize) -> Result<JobForm, Fail> {
    let mut form = JobForm::new(heap);
    assert!(rt; n <= 16);
    form.fill(&[1; 16][0..n])?;
    Ok(form)
}

// Sets for each clash a job of its own at both ends.
fn set_jobs(rt: &impl Abort, masks: &mut [u64], clashes: &[(usize, usize)]) {
    for (job, (a, b)) in clashes.iter().enumerate() {
        assert!(rt; job < 64 && *a < masks.len() && *b < masks.len());
        masks[*a] |= 1 << job;
        masks[*b] |= 1 << job;
    }
}

// The stock of n cartridges, at most 16, with these clashes, at most 64.
pub fn stock(
    rt: &impl Abort,
    heap: Global,
    n: usize,
    clashes: &[(usize, usize)],
) -> Result<JobForm, Fail> {
    let mut masks = [0u64; 16];
    assert!(rt; n <= 16);
    let held = &mut masks[0..n];
    set_jobs(rt, held, clashes);
    let mut form = JobForm::new(heap);
    form.fill(held)?;
    Ok(form)
}
