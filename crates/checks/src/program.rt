use printout::{clean_sheet, serve};
use sheets::{load, read, reread};
use std::alloc::Global;
use std::process::Abort;
use std::test::Fail;

const RING: &[u8] = b"s\t4\t4\np\t0\t1\np\t0\t3\nr\tturn\np\t1\t2\np\t2\t3\ne\n";

fn prints(rt: &impl Abort, heap: Global, input: &[u8], output: &[u8]) -> Result<(), Fail> {
    let text = clean_sheet(heap, input)?;
    assert_eq!(rt; text.as_slice(), output);
    Ok(())
}

#[test]
fn printed(rt: HostRuntime) -> Result<(), Fail> {
    let heap = rt.alloc();
    prints(
        &rt,
        heap,
        RING,
        b"s\t4\t4\np\t0\t1\np\t0\t3\np\t1\t2\np\t2\t3\ne\n",
    )?;
    prints(&rt, heap, b"", b"x\t9\t1\t1\n")?;
    prints(&rt, heap, b"s\t4\t1\np\t0\t04\n", b"x\t9\t2\t3\n")?;
    prints(&rt, heap, b"s\t4\t1\np\t0\t4\n", b"x\t1\n")?;
    prints(&rt, heap, b"s\t4\t1\np\t1\t0\n", b"x\t10\n")?;
    prints(&rt, heap, b"s\t1025\t0\n", b"x\t11\n")?;
    prints(&rt, heap, b"s\t4\t1\ne\n", b"x\t12\n")
}

// a sheet of n bytes: a size line, one long remark, the end
fn long(heap: Global, n: usize) -> Result<Vec<u8>, Fail> {
    let mut sheet = b"s\t1\t0\nr\t".to_vec(heap)?;
    sheet.resize(n.saturating_sub(3), b'a')?;
    sheet.extend_from_slice(b"\ne\n")?;
    Ok(sheet)
}

#[test]
fn by_length(rt: HostRuntime) -> Result<(), Fail> {
    let heap = rt.alloc();
    let most = long(heap, 65536)?;
    assert_eq!(rt; most.len(), 65536);
    prints(&rt, heap, most.as_slice(), b"s\t1\t0\ne\n")?;
    let over = long(heap, 65537)?;
    assert_eq!(rt; over.len(), 65537);
    prints(&rt, heap, over.as_slice(), b"x\t7\n")
}

// what is read is answered, and the answer stands behind what was there
#[test]
fn served(rt: HostRuntime) -> Result<(), Fail> {
    let heap = rt.alloc();
    let mut output = b"#".to_vec(heap)?;
    serve(heap, RING, &mut output, |sheet| clean_sheet(heap, sheet))?;
    assert_eq!(rt;
        output.as_slice(),
        b"#s\t4\t4\np\t0\t1\np\t0\t3\np\t1\t2\np\t2\t3\ne\n".as_slice()
    );
    Ok(())
}

#[test]
fn read_into(rt: HostRuntime) -> Result<(), Fail> {
    let heap = rt.alloc();
    let mut offsets = [7u16; 6];
    let mut neighbours = [7u16; 9];
    match read(heap, RING, &mut offsets[0..4], &mut neighbours) {
        Ok(_) => return Err(Fail::new("four offsets do not suffice")),
        Err(fault) => assert_eq!(rt; u8::from(fault.refusal), 7),
    }
    match read(heap, RING, &mut offsets, &mut neighbours[0..7]) {
        Ok(_) => return Err(Fail::new("seven neighbours do not suffice")),
        Err(fault) => assert_eq!(rt; u8::from(fault.refusal), 7),
    }
    assert_eq!(rt; offsets, [7; 6]);
    assert_eq!(rt; neighbours, [7; 9]);
    match read(heap, RING, &mut offsets, &mut neighbours) {
        Ok(size) => assert_eq!(rt; (size.n, size.clashes), (4, 4)),
        Err(_) => return Err(Fail::new("there is room")),
    }
    assert_eq!(rt; offsets, [0, 2, 4, 6, 8, 7]);
    assert_eq!(rt; neighbours, [1, 3, 0, 2, 1, 3, 0, 2, 7]);
    Ok(())
}

#[test]
fn round(rt: HostRuntime) -> Result<(), Fail> {
    let heap = rt.alloc();
    match load(heap, RING) {
        Ok(form) => {
            let again = reread(heap, &form)?;
            assert_eq!(rt; again.offsets(), form.offsets());
            assert_eq!(rt; again.neighbours(), form.neighbours());
            Ok(())
        }
        Err(_) => Err(Fail::new("a ring of four")),
    }
}
