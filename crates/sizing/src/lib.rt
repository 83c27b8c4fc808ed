//! What the program prints of a stock.
#![tactic(auto)]

ghost use Rattle.std.specs.Prelude.{◌≡◌, ◌≤◌, ◌⊎◌, length, take, IfOk, MatchResult};
ghost use Rattle.order.specs.Order.{Dense};
ghost use Rattle.rows.specs.Rows.{listed};
ghost use Rattle.sizing.specs.Sized.{FormSized, Prints, printout};

use bounds::ClassBound;
use climb::climb_all;
use fields::write_numbers;
use graph::Source;
use graph::refusal::Refusal;
use plan::{Planned, plan};
use printout::{print_stock, write_drives};
use sources::list_form::ListForm;
use std::alloc::{AllocError, Global};

// The head line, the block, and the drive of each cartridge.
fn write_sizing(
    heap: Global,
    planned: Planned,
    block: &[u16],
    colours: &[u16],
) -> Result<Vec<u8>, AllocError>
    ensures { IfOk result (λ v. v.items ≡ printout (length colours.now) planned.len planned.degeneracy planned.drives block.now colours.now) }
{
    let mut out = Vec::new(heap);
    let head = [planned.len, planned.degeneracy, block.len(), planned.drives];
    write_numbers(&mut out, b'n', &head)?;
    write_numbers(&mut out, b'k', block)?;
    write_drives(&mut out, colours)?;
    Ok(out)
}

// The first plan and a largest clash set of a stock, or the refusal.
fn size_form(heap: Global, form: &ListForm) -> Result<Vec<u8>, Refusal>
    ensures { MatchResult result (λ v. FormSized form.now.offsets.items form.now.neighbours.items v.items) (λ x. ((x ≡ Refusal.TooDense) × Dense (listed form.now.offsets.items form.now.neighbours.items)) ⊎ (x ≡ Refusal.NoMemory)) }
{
    let mut order = [0u16; 1024];
    let mut colours = [0u16; 1024];
    let mut block = [0u16; 64];
    let planned = plan(form, &mut order, &mut colours)?;
    let n = form.size();
    let held = planned.len;
    let count = climb_all(form, &ClassBound {}, &order[..held], &mut block)?;
    let text = write_sizing(heap, planned, &block[..count], &colours[..n])?;
    Ok(text)
}

/// The whole printout for what was read: the first plan and a largest clash set of the stock, or the line of a refusal.
pub fn respond(heap: Global, input: &[u8]) -> Result<Vec<u8>, AllocError>
    ensures { IfOk result (λ v. Prints input.now v.items) }
{
    print_stock(heap, input, |form| size_form(heap, form))
}
