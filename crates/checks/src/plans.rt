use fields::write_fields;
use sizing::respond;
use std::alloc::Global;
use std::process::Abort;
use std::test::Fail;

fn prints(rt: &impl Abort, heap: Global, input: &[u8], output: &[u8]) -> Result<(), Fail> {
    let text = respond(heap, input)?;
    assert_eq!(rt; text.as_slice(), output);
    Ok(())
}

#[test]
fn small(rt: HostRuntime) -> Result<(), Fail> {
    let heap = rt.alloc();
    prints(&rt, heap, b"s\t0\t0\ne\n", b"n\t0\t0\t0\t0\nk\n")?;
    prints(
        &rt,
        heap,
        b"s\t1\t0\ne\n",
        b"n\t1\t0\t1\t1\nk\t0\nd\t0\t1\n",
    )?;
    prints(
        &rt,
        heap,
        b"s\t4\t4\np\t0\t1\np\t0\t3\nr\tturn\np\t1\t2\np\t2\t3\ne\n",
        b"n\t4\t2\t2\t2\nk\t2\t3\nd\t0\t2\nd\t1\t1\nd\t2\t2\nd\t3\t1\n",
    )?;
    prints(
        &rt,
        heap,
        b"s\t5\t5\np\t0\t1\np\t0\t4\np\t1\t2\np\t2\t3\np\t3\t4\ne\n",
        b"n\t5\t2\t2\t3\nk\t3\t4\nd\t0\t3\nd\t1\t2\nd\t2\t1\nd\t3\t2\nd\t4\t1\n",
    )
}

#[test]
fn wheels(rt: HostRuntime) -> Result<(), Fail> {
    let heap = rt.alloc();
    prints(
        &rt,
        heap,
        b"s\t4\t6\np\t0\t1\np\t0\t2\np\t0\t3\np\t1\t2\np\t1\t3\np\t2\t3\ne\n",
        b"n\t4\t3\t4\t4\nk\t0\t1\t2\t3\nd\t0\t4\nd\t1\t3\nd\t2\t2\nd\t3\t1\n",
    )?;
    prints(
        &rt,
        heap,
        b"s\t6\t10\np\t0\t1\np\t0\t4\np\t0\t5\np\t1\t2\np\t1\t5\np\t2\t3\np\t2\t5\np\t3\t4\np\t3\t5\np\t4\t5\ne\n",
        b"n\t6\t3\t3\t4\nk\t3\t4\t5\nd\t0\t4\nd\t1\t3\nd\t2\t2\nd\t3\t3\nd\t4\t2\nd\t5\t1\n",
    )
}

// k cartridges that all clash
fn all_clashing(heap: Global, k: u64) -> Result<Vec<u8>, Fail> {
    let mut sheet = Vec::new(heap);
    let mut clashes = 0u64;
    for a in 0..k {
        clashes = clashes.saturating_add(a);
    }
    write_fields(&mut sheet, b's', &[k, clashes])?;
    for a in 0..k {
        for b in a + 1..k {
            write_fields(&mut sheet, b'p', &[a, b])?;
        }
    }
    write_fields(&mut sheet, b'e', &[])?;
    Ok(sheet)
}

#[test]
fn densest(rt: HostRuntime) -> Result<(), Fail> {
    let heap = rt.alloc();
    let taken = all_clashing(heap, 64)?;
    let text = respond(heap, taken.as_slice())?;
    assert!(rt; text.len() > 14);
    assert_eq!(rt; &text.as_slice()[0..14], b"n\t64\t63\t64\t64\n".as_slice());
    let refused = all_clashing(heap, 65)?;
    prints(&rt, heap, refused.as_slice(), b"x\t4\n")
}

// a faulty sheet is refused before anything is ordered
#[test]
fn refused(rt: HostRuntime) -> Result<(), Fail> {
    let heap = rt.alloc();
    prints(&rt, heap, b"", b"x\t9\t1\t1\n")?;
    prints(&rt, heap, b"s\t4\t1\np\t0\t04\n", b"x\t9\t2\t3\n")?;
    prints(&rt, heap, b"s\t4\t1\np\t0\t4\n", b"x\t1\n")?;
    prints(&rt, heap, b"s\t4\t1\ne\n", b"x\t12\n")
}
