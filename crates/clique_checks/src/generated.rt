use crate::exhaustive::{is_clique, most_joined};
use bounds::{Bound, ClassBound, SizeBound};
use pictures::{Picture, draw};
use sources::list_form::ListForm;
use std::alloc::{AllocError, Global};
use std::process::Abort;
use std::test::Fail;
use two_part::TwoPartBound;

// A generator of numbers, the same in each run.
#[derive(Drop)]
struct Dice {
    state: u64,
}

impl Dice {
    // The next number below 16.
    fn roll(&mut self) -> u64 {
        self.state = self
            .state
            .wrapping_mul(6364136223846793005)
            .wrapping_add(1442695040888963407);
        self.state >> 60
    }
}

// A mask of the places below `n`, each of them in it with a chance of `chance` in 16.
fn some_places(dice: &mut Dice, n: usize, chance: u64) -> u64 {
    let mut mask = 0u64;
    for i in 0..n.min(64) {
        if dice.roll() < chance {
            mask |= 1 << i;
        }
    }
    mask
}

// Which of 14 places are joined, each pair with a chance of `chance` in 16.
fn some_rows(dice: &mut Dice, chance: u64) -> [u64; 14] {
    let mut rows = [0u64; 14];
    for (i, row) in rows.iter_mut().enumerate() {
        *row = some_places(dice, i, chance);
    }
    rows
}

// Writes the neighbours of `i` below `n`, where row `j` has those of `j` that are below it.
fn write_row(rows: &[u64; 14], i: usize, n: usize, out: &mut Vec<u16>) -> Result<(), AllocError> {
    for j in 0..n.min(14) {
        let (low, high) = if j < i { (j, i) } else { (i, j) };
        if high < 14 && rows[high] >> low & 1 == 1 {
            out.push(j as u16)?;
        }
    }
    Ok(())
}

// The graph of the first `n` rows.
fn form_of(heap: Global, rows: &[u64; 14], n: usize) -> Result<ListForm, Fail> {
    let mut offsets = Vec::new(heap);
    let mut neighbours = Vec::new(heap);
    offsets.push(0)?;
    for i in 0..n {
        write_row(rows, i, n, &mut neighbours)?;
        offsets.push(u16::try_from(neighbours.len())?)?;
    }
    let mut form = ListForm::new(heap)?;
    form.fill(offsets.as_slice(), neighbours.as_slice())?;
    Ok(form)
}

// What a search inside `mask` for more than `size` answered, where a largest clique has `most` members.
fn is_right(rt: &impl Abort, p: &Picture, mask: u64, most: u32, size: usize, found: Option<u64>) {
    match found {
        Some(k) => {
            assert_eq!(rt; k.count_ones(), most);
            assert!(rt; k & !mask == 0 && is_clique(p, k) && most as usize > size);
        }
        None => assert!(rt; most as usize <= size),
    }
}

// The two searches inside `mask`, for more than each size.
fn agrees<B: Bound>(rt: &impl Abort, bound: &B, p: &Picture, mask: u64, most: u32) {
    for size in 0..15 {
        is_right(
            rt,
            p,
            mask,
            most,
            size,
            cliques::largest(bound, p, mask, size),
        );
        is_right(
            rt,
            p,
            mask,
            most,
            size,
            branching::largest(bound, p, mask, size),
        );
    }
}

// One generated graph of `n` places: the searches with each bound inside a mask, and the climbs in the order of the numbers.
fn try_one(
    rt: &impl Abort,
    heap: Global,
    dice: &mut Dice,
    n: usize,
    chance: u64,
) -> Result<(), Fail> {
    let rows = some_rows(dice, chance);
    let form = form_of(heap, &rows, n)?;
    let order = [0u16, 1, 2, 3, 4, 5, 6, 7, 8, 9, 10, 11, 12, 13];
    assert!(rt; n <= 14);
    let p = draw(&form, &order[0..n])?;
    let mask = some_places(dice, 64, 12);
    let most = most_joined(&p, mask);
    agrees(rt, &SizeBound {}, &p, mask, most);
    agrees(rt, &ClassBound {}, &p, mask, most);
    agrees(rt, &TwoPartBound(ClassBound {}), &p, mask, most);
    let mut block = [0u16; 64];
    let whole = most_joined(&p, u64::MAX) as usize;
    let count = climb::climb_all(&form, &ClassBound {}, &order[0..n], &mut block)?;
    assert_eq!(rt; count, whole);
    let count = listed_climb::climb_all(&form, &ClassBound {}, &order[0..n], &mut block)?;
    assert_eq!(rt; count, whole);
    Ok(())
}

// 200 graphs of 1 to 14 places, of eight densities
#[test]
fn graphs(rt: HostRuntime) -> Result<(), Fail> {
    let mut dice = Dice { state: 20261118 };
    for round in 0..200usize {
        let chance = round as u64 % 8 * 2 + 1;
        try_one(&rt, rt.alloc(), &mut dice, round % 14 + 1, chance)?;
    }
    Ok(())
}
