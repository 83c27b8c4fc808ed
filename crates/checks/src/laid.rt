use graph::refusal::{Part, Refusal};
use std::test::Fail;
use tally::{Laying, Tally, Totals};

#[test]
fn counted(rt: HostRuntime) -> Result<(), Fail> {
    let mut tally = Tally::empty();
    assert_eq!(rt; tally.count(0, 1), Err(Refusal::OutOfRange));
    assert_eq!(rt; tally.open(1025), Err(Refusal::TooLarge));
    tally.open(4)?;
    assert_eq!(rt; tally.count(4, 0), Err(Refusal::OutOfRange));
    assert_eq!(rt; tally.count(1, 1), Err(Refusal::Unordered));
    assert_eq!(rt; tally.count(2, 1), Err(Refusal::Unordered));
    tally.count(0, 2)?;
    assert_eq!(rt; tally.count(0, 2), Err(Refusal::Unordered));
    assert_eq!(rt; tally.count(0, 1), Err(Refusal::Unordered));
    tally.count(1, 2)?;
    let totals = tally.totals();
    assert_eq!(rt; totals.n, 4);
    assert_eq!(rt; totals.clashes, 2);
    Ok(())
}

// as many clashes as there may be
#[test]
fn most(rt: HostRuntime) -> Result<(), Fail> {
    let mut tally = Tally::empty();
    tally.open(1024)?;
    for a in 0..16 {
        for b in a + 1..1024 {
            tally.count(a, b)?;
        }
    }
    for b in 17..153 {
        tally.count(16, b)?;
    }
    assert_eq!(rt; tally.count(16, 153), Err(Refusal::TooLarge));
    assert_eq!(rt; tally.totals().clashes, 16384);
    Ok(())
}

// a laying for the path 0 - 1 - 2
fn path() -> Result<Laying, Fail> {
    let mut tally = Tally::empty();
    tally.open(3)?;
    tally.count(0, 1)?;
    tally.count(1, 2)?;
    let Totals {
        n: _,
        clashes: _,
        laying,
    } = tally.totals();
    Ok(laying)
}

#[test]
fn laid(rt: HostRuntime) -> Result<(), Fail> {
    let mut laying = path()?;
    let mut neighbours = [9u16; 5];
    let mut offsets = [9u16; 5];
    let mut short = [9u16; 3];
    assert_eq!(rt; laying.lay(&mut short, 0, 1), Err(Refusal::ShortBuffer));
    assert_eq!(rt; laying.lay(&mut neighbours, 3, 0), Err(Refusal::OutOfRange));
    assert_eq!(rt; laying.lay(&mut neighbours, 1, 0), Err(Refusal::Unordered));
    laying.lay(&mut neighbours, 0, 1)?;
    assert_eq!(rt; laying.lay(&mut neighbours, 0, 1), Err(Refusal::Unordered));
    assert_eq!(rt; laying.lay(&mut neighbours, 0, 2), Err(Refusal::Miscounted));
    assert_eq!(rt;
        laying.finish(&neighbours, &mut offsets),
        Err(Refusal::Miscounted)
    );
    laying.lay(&mut neighbours, 1, 2)?;
    assert_eq!(rt; laying.lay(&mut neighbours, 1, 2), Err(Refusal::Unordered));
    assert_eq!(rt;
        laying.finish(&neighbours, &mut short),
        Err(Refusal::ShortBuffer)
    );
    assert_eq!(rt;
        laying.finish(&[0; 3], &mut offsets),
        Err(Refusal::ShortBuffer)
    );
    assert_eq!(rt; offsets, [9, 9, 9, 9, 9]);
    laying.finish(&neighbours, &mut offsets)?;
    assert_eq!(rt; neighbours, [1, 0, 2, 1, 9]);
    assert_eq!(rt; offsets, [0, 1, 3, 4, 9]);
    Ok(())
}

// neighbours that were changed between the calls
#[test]
fn broken(rt: HostRuntime) -> Result<(), Fail> {
    let mut laying = path()?;
    let mut neighbours = [9u16; 4];
    let mut offsets = [9u16; 4];
    laying.lay(&mut neighbours, 0, 1)?;
    laying.lay(&mut neighbours, 1, 2)?;
    neighbours[2] = 0;
    let expected = Refusal::BadList {
        part: Part::Neighbours,
        index: 2,
    };
    assert_eq!(rt; laying.finish(&neighbours, &mut offsets), Err(expected));
    assert_eq!(rt; offsets, [9, 9, 9, 9]);
    neighbours[2] = 2;
    laying.finish(&neighbours, &mut offsets)?;
    assert_eq!(rt; offsets, [0, 1, 3, 4]);
    Ok(())
}
