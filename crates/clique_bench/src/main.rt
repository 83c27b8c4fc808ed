// Reads a sheet on standard input and searches its stock for a largest clash set, as often as it is told; prints how many
// cartridges the set has. The arguments are the bound, `size`, `class` or `two`, and how often to search.
#![tactic(auto)]

use anyhow::{Context, anyhow};
use bounds::{Bound, ClassBound, SizeBound};
use graph::refusal::Refusal;
use listed_climb::climb_all;
use order::removal_order;
use sheets::load;
use sources::list_form::ListForm;
use std::env;
use std::io::Read;
use two_part::TwoPartBound;

// Orders the stock and climbs through the whole order.
fn search<B: Bound>(bound: &B, form: &ListForm) -> Result<usize, Refusal> {
    let mut order = [0u16; 1024];
    let mut block = [0u16; 64];
    let held = removal_order(form, &mut order)?.len;
    climb_all(form, bound, &order[0..held], &mut block)
}

// The same `turns` times.
fn repeat<B: Bound>(bound: &B, form: &ListForm, turns: u32) -> Result<usize, Refusal> {
    let mut most = 0;
    for _ in 0..turns {
        most = most.max(search(bound, form)?);
    }
    Ok(most)
}

// The same with the bound of that name.
fn search_by(name: &str, form: &ListForm, turns: u32) -> Result<usize, Refusal> {
    match name {
        "size" => repeat(&SizeBound {}, form, turns),
        "class" => repeat(&ClassBound {}, form, turns),
        _ => repeat(&TwoPartBound(ClassBound {}), form, turns),
    }
}

fn run(rt: &HostRuntime) -> anyhow::Result<()> {
    let mut args = env::args(rt)?;
    let _ = args.next();
    let name = args.next().context("no bound")?;
    let turns = args.next().context("no count")?.as_str().parse::<u32>()?;
    let mut input = Vec::new(rt.alloc());
    rt.stdin().read_to_end(&mut input)?;
    let form = load(rt.alloc(), input.as_slice()).map_err(|_| anyhow!("no sheet"))?;
    let most = search_by(name.as_str(), &form, turns).map_err(|_| anyhow!("refused"))?;
    println!(rt; "{most}")?;
    Ok(())
}

fn main(rt: HostRuntime) -> anyhow::Result<()> {
    run(&rt)
}
