//! Trying the kernel of a stock from the block's size on, and what is printed of it.
#![tactic(auto)]

ghost use Rattle.std.specs.Prelude.{◌≡◌, ◌≤◌, ◌⊎◌, IfOk, MatchResult};
ghost use Rattle.rows.specs.Rows.{listed};
ghost use Rattle.trying.specs.Shown.{Prints, Shown};
ghost use Rattle.trying.specs.Trying.{TryRefused};

use graph::Source;
use graph::refusal::Refusal;
use printing::write_trial;
use printout::print_stock;
use sources::list_form::ListForm;
use std::alloc::{AllocError, Global};

mod printing;
mod pulling;
mod rounds;
mod settling;

pub use settling::{Trial, try_out};

// The tries of a stock and the drives found, or the refusal.
fn show_form(heap: Global, form: &ListForm) -> Result<Vec<u8>, Refusal>
    ensures { MatchResult result (λ v. Shown (listed form.now.offsets.items form.now.neighbours.items) v.items) (λ x. TryRefused (listed form.now.offsets.items form.now.neighbours.items) x ⊎ (x ≡ Refusal.NoMemory)) }
{
    let mut colours = [0u16; 1024];
    let trial = try_out(form, &mut colours)?;
    let text = write_trial(heap, trial, &colours[..form.size()])?;
    Ok(text)
}

/// The whole printout for what was read: each number of drives tried, with 0 for a no and 1 for the yes, and then the
/// drive of each cartridge; or the line of a refusal.
pub fn respond(heap: Global, input: &[u8]) -> Result<Vec<u8>, AllocError>
    ensures { IfOk result (λ v. Prints input.now v.items) }
{
    print_stock(heap, input, |form| show_form(heap, form))
}
