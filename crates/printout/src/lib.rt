//! What the program prints.
#![tactic(auto)]

ghost use Rattle.std.specs.Prelude.{◌≡◌, ◌++◌, length, take, IfOk, IfSome, MatchResult, OnOk};
ghost use Rattle.std.specs.Vec.{vec_items};
ghost use Rattle.std.specs.Fn.{FnOnceReturnsAt};
ghost use Rattle.graph.specs.Refusals.{number};
ghost use Rattle.lines.specs.Kept.{line_of, field_of};
ghost use Rattle.printout.specs.Printed.{Answers, Prints, Replies, Rewrites, drive_lines, refusal};

use fields::write_numbers;
use graph::refusal::Refusal;
use lines::Fault;
use sheets::load;
use sources::list_form::ListForm;
use std::alloc::{AllocError, Global};
use std::io;
use std::io::{Read, Write};
use writing::write;

/// The most bytes that a sheet may have.
pub const LIMIT: usize = 65536;

// What is made of the stock of a sheet, or the fault.
fn answered<'a, F: FnOnce(&ListForm) -> Result<Vec<u8>, Refusal>>(
    heap: Global,
    input: &'a [u8],
    answer: F,
) -> Result<Vec<u8>, Fault<'a>>
    requires { F.IsAlwaysCallable answer }
    ensures { MatchResult result (λ v. Answers vec_items (FnOnceReturnsAt F.FnOnce answer) input.now v.items) (λ f. Answers vec_items (FnOnceReturnsAt F.FnOnce answer) input.now (refusal (number f.refusal) (line_of f.place) (field_of f.place))) }
{
    if input.len() > LIMIT {
        return Err(Refusal::ShortBuffer.into());
    }
    let form = load(heap, input)?;
    let text = answer(&form)?;
    Ok(text)
}

/// The line of a refusal.
pub fn write_refusal(heap: Global, fault: &Fault) -> Result<Vec<u8>, AllocError>
    ensures { IfOk result (λ v. v.items ≡ refusal (number fault.now.refusal) (line_of fault.now.place) (field_of fault.now.place)) }
{
    let mut out = Vec::new(heap);
    let code = usize::from(u8::from(fault.refusal));
    if fault.refusal == Refusal::BadLine {
        write_numbers(&mut out, b'x', &[code, fault.line(), fault.field()])?;
    } else {
        write_numbers(&mut out, b'x', &[code])?;
    }
    Ok(out)
}

/// The drive of each cartridge.
pub fn write_drives(out: &mut Vec<u8>, colours: &[u16]) -> Result<(), AllocError>
    ensures { OnOk result (out.new.items ≡ out.old.items ++ drive_lines colours.now (length colours.now)) }
{
    for (c, colour) in colours.iter().enumerate() {
        write_numbers(out, b'd', &[c, usize::from(*colour)])?;
    }
    Ok(())
}

/// The whole printout for what was read: what is made of its stock, or the line of a refusal.
pub fn print_stock<F: FnOnce(&ListForm) -> Result<Vec<u8>, Refusal>>(
    heap: Global,
    input: &[u8],
    answer: F,
) -> Result<Vec<u8>, AllocError>
    requires { F.IsAlwaysCallable answer }
    ensures { IfOk result (λ out. Answers vec_items (FnOnceReturnsAt F.FnOnce answer) input.now out.items) }
{
    match answered(heap, input, answer) {
        Ok(text) => Ok(text),
        Err(fault) => write_refusal(heap, &fault),
    }
}

/// The whole printout for what was read: the stock as a clean sheet, or the line of a refusal.
pub fn clean_sheet(heap: Global, input: &[u8]) -> Result<Vec<u8>, AllocError>
    ensures value { IfOk result (λ v. Prints input.now v.items) }
    ensures same { IfOk result (λ v. Rewrites input.now v.items) }
{
    print_stock(heap, input, |form| Ok(write(heap, form)?))
}

/// Reads a sheet, up to one byte more than it may have, and writes what `respond` makes of it, or 99 where memory is wanting.
pub fn serve<R: Read + Drop, W: Write, F: FnOnce(&[u8]) -> Result<Vec<u8>, AllocError>>(
    heap: Global,
    input: R,
    output: &mut W,
    respond: F,
) -> io::Result<()>
    requires { F.IsAlwaysCallable respond }
    ensures { OnOk result (IfSome (R.remaining input) (λ bytes. Replies vec_items (FnOnceReturnsAt F.FnOnce respond (take 65537 bytes)) (W.contents output.old) (W.contents output.new))) }
{
    let mut sheet = Vec::new(heap);
    input.take(LIMIT as u64 + 1).read_to_end(&mut sheet)?;
    match respond(sheet.as_slice()) {
        Ok(text) => output.write_all(text.as_slice()),
        Err(_) => output.write_all(b"x\t99\n"),
    }
}
