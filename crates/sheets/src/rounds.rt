ghost use Rattle.std.specs.Prelude.{◌≡◌, MatchResult};
ghost use Rattle.grammar.specs.Sheet.{outcome};
ghost use Rattle.sheets.specs.Into.{Unread};
ghost use Rattle.sheets.specs.Loaded.{Rewritten};

use crate::loading::load;
use graph::refusal::Refusal;
use lines::Fault;
use sources::list_form::ListForm;
use std::alloc::Global;
use writing::write;

/// The sheet read and written back: the same stock, and without remarks the same bytes.
pub fn rewrite<'a>(heap: Global, sheet: &'a [u8]) -> Result<Vec<u8>, Fault<'a>>
    ensures { MatchResult result (λ v. Rewritten sheet.now v.items) (Unread (outcome sheet.now)) }
{
    let form = load(heap, sheet)?;
    let text = write(heap, &form)?;
    Ok(text)
}

/// The list form written and read back: the same list form.
pub fn reread(heap: Global, form: &ListForm) -> Result<ListForm, Refusal>
    ensures { MatchResult result (λ f. (f.offsets.items ≡ form.now.offsets.items) × (f.neighbours.items ≡ form.now.neighbours.items)) (λ x. x ≡ Refusal.NoMemory) }
{
    let text = write(heap, form)?;
    load(heap, text.as_slice()).map_err(|fault| fault.refusal)
}
