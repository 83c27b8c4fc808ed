// Measures the cap: reads a sheet of any length, finds its stock's cap a hundred times, and prints it with the number
// of clashes in the last community. A measurement, no part of what is promised.
#![tactic(auto)]

use capping::cap;
use graph::edge::Edge;
use graph::refusal::Refusal;
use sheets::load;
use sources::list_form::ListForm;
use std::io;
use std::io::{Read, Write};

const MOST: u64 = 1048576;

const RUNS: usize = 100;

#[derive(Drop)]
struct Measured {
    top: usize,
    living: usize,
}

// How many bytes are 1.
fn ones(bytes: &[u8]) -> usize {
    bytes.iter().filter(|b| **b == 1).count()
}

// Finds the cap again and again.
fn repeat(
    form: &ListForm,
    clashes: &mut [Edge],
    living: &mut [u8],
    marks: &mut [u8],
) -> Result<usize, Refusal> {
    let mut top = 0;
    for _ in 0..RUNS {
        top = cap(form, clashes, living, marks)?;
    }
    Ok(top)
}

fn measure(form: &ListForm) -> Result<Measured, Refusal> {
    let mut clashes = [Edge { a: 0, b: 0 }; 16384];
    let mut living = [0u8; 16384];
    let mut marks = [0u8; 1024];
    let top = repeat(form, &mut clashes, &mut living, &mut marks)?;
    Ok(Measured {
        top,
        living: ones(&living),
    })
}

fn run(rt: &HostRuntime) -> io::Result<()> {
    let mut input = Vec::new(rt.alloc());
    rt.stdin().take(MOST).read_to_end(&mut input)?;
    match load(rt.alloc(), input.as_slice()) {
        Ok(form) => match measure(&form) {
            Ok(m) => writeln!(rt.stdout(), "{}\t{}", m.top, m.living),
            Err(_) => rt.stdout().write_all(b"refused\n"),
        },
        Err(_) => rt.stdout().write_all(b"faulty\n"),
    }
}

fn main(rt: HostRuntime) {
    let _ = run(&rt);
}
