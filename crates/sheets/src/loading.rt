ghost use Rattle.std.specs.Prelude.{◌≡◌, ℕ, List, [], length, vec_len, MatchResult};
ghost use Rattle.grammar.specs.Sheet.{fault, limit, outcome};
ghost use Rattle.lines.specs.Kept.{told};
ghost use Rattle.sheets.specs.Into.{ReadInto, Unread, short};
ghost use Rattle.sheets.specs.Loaded.{Loaded};

use crate::laying_out::lay_out;
use graph::edge::Edge;
use graph::refusal::Refusal;
use lines::Fault;
use reading::{Size, check, read_edges};
use sources::list_form::ListForm;
use std::alloc::Global;

/// Reads a sheet into lent offsets and neighbours. All lines are tested first, and then whether there is room.
pub fn read<'a>(
    heap: Global,
    sheet: &'a [u8],
    offsets: &mut [u16],
    neighbours: &mut [u16],
) -> Result<Size, Fault<'a>>
    ensures { MatchResult result (λ t. ReadInto sheet.now t.n t.clashes offsets.old offsets.new neighbours.old neighbours.new) (λ f. Unread (limit (short (length offsets.old) (length neighbours.old)) (outcome sheet.now)) f × (offsets.new ≡ offsets.old) × (neighbours.new ≡ neighbours.old)) }
{
    let size = check(sheet)?;
    let n = size.n as usize;
    let count = size.clashes as usize;
    if offsets.len() < n + 1 || neighbours.len() < count + count {
        return Err(Refusal::ShortBuffer.into());
    }
    let mut edges = vec![in heap; Edge { a: 0, b: 0 }; count]?;
    read_edges(sheet, edges.as_mut_slice())?;
    lay_out(n, edges.as_slice(), offsets, neighbours)?;
    Ok(size)
}

/// Reads a sheet as a list form.
pub fn load<'a>(heap: Global, sheet: &'a [u8]) -> Result<ListForm, Fault<'a>>
    ensures { MatchResult result (λ form. Loaded sheet.now form.offsets.items form.neighbours.items) (Unread (outcome sheet.now)) }
{
    let size = check(sheet)?;
    let rows = size.n as usize;
    let clashes = size.clashes as usize;
    let mut offsets = vec![in heap; 0u16; rows + 1]?;
    let mut neighbours = vec![in heap; 0u16; clashes + clashes]?;
    read(
        heap,
        sheet,
        offsets.as_mut_slice(),
        neighbours.as_mut_slice(),
    )?;
    let form = ListForm::filled(heap, offsets.as_slice(), neighbours.as_slice())?;
    Ok(form)
}
