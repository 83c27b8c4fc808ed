// Small stocks, planners over them, and what can be seen of a planner.
use bounds::ClassBound;
use calls::call::Report;
use calls::row::Row;
use graph::refusal::Refusal;
use planner::Planner;
use sources::list_form::ListForm;
use std::alloc::Global;
use std::process::Abort;
use std::test::Fail;

pub type Small = Planner<ListForm, ClassBound>;

pub fn ring_of_five(heap: Global) -> Result<Small, Refusal> {
    let form = ListForm::filled(heap, &[0, 2, 4, 6, 8, 10], &[1, 4, 0, 2, 1, 3, 2, 4, 0, 3])?;
    Ok(Planner::open(form, ClassBound {}))
}

pub fn ring_of_four(heap: Global) -> Result<Small, Refusal> {
    let form = ListForm::filled(heap, &[0, 2, 4, 6, 8], &[1, 3, 0, 2, 1, 3, 0, 2])?;
    Ok(Planner::open(form, ClassBound {}))
}

// four that all clash
pub fn four_clashing(heap: Global) -> Result<Small, Refusal> {
    let form = ListForm::filled(
        heap,
        &[0, 3, 6, 9, 12],
        &[1, 2, 3, 0, 2, 3, 0, 1, 3, 0, 1, 2],
    )?;
    Ok(Planner::open(form, ClassBound {}))
}

// a ring of five with 4 hidden, loose, ordered or climbed
pub fn path_at(rt: &impl Abort, heap: Global, standing: u8) -> Result<Small, Fail> {
    let mut planner = ring_of_five(heap)?;
    planner.hide(4)?;
    if standing >= 1 {
        planner.order()?;
    }
    if standing >= 2 {
        for _ in 0..4 {
            planner.climb()?;
        }
    }
    assert_eq!(rt; planner.report().standing, standing);
    Ok(planner)
}

// What a planner of at most six numbers tells.
#[derive(Clone, Copy, PartialEq, Eq, Debug)]
pub struct Seen {
    pub report: Report,
    pub told: Result<usize, Refusal>,
    pub block: [u16; 6],
    pub filled: Result<(), Refusal>,
    pub rows: [Row; 6],
}

pub fn look(planner: &Small) -> Seen {
    let mut block = [7; 6];
    let mut rows = [row(7, 7); 6];
    Seen {
        report: planner.report(),
        told: planner.block(&mut block),
        block,
        filled: planner.plan(&mut rows),
        rows,
    }
}

pub fn row(cartridge: u16, drive: u16) -> Row {
    Row { cartridge, drive }
}

// the number of a refusal, 0 where the call was taken
pub fn number<T: Drop>(answer: Result<T, Refusal>) -> u8 {
    match answer {
        Ok(_) => 0,
        Err(refusal) => u8::from(refusal),
    }
}

// the eight numbers in a row
pub fn eight(planner: &Small) -> [usize; 8] {
    let r = planner.report();
    [
        r.standing as usize,
        r.held,
        r.degeneracy,
        r.climbed,
        r.block,
        r.floor,
        r.ceiling,
        r.proved as usize,
    ]
}
