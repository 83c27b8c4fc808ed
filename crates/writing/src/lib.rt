//! A list form written as a sheet.
#![tactic(auto)]

ghost use Rattle.std.specs.Prelude.{◌≡◌, ◌<◌, ◌++◌, IfOk, OnOk};
ghost use Rattle.std.specs.List.{flat_map};
ghost use Rattle.graph.specs.Edges.{edges_at, edge_list};
ghost use Rattle.rows.specs.Rows.{listed, rows};
ghost use Rattle.grammar.specs.Sheet.{row, written, edge_row};

use fields::write_numbers;
use graph::Source;
use graph::neighbours::Neighbours;
use sources::list_form::ListForm;
use std::alloc::{AllocError, Global};

// A letter and two numbers.
fn write_line(out: &mut Vec<u8>, letter: u8, a: usize, b: usize) -> Result<(), AllocError>
    ensures { OnOk result (out.new.items ≡ out.old.items ++ row letter a b) }
{
    write_numbers(out, letter, &[a, b])
}

// The clashes of `a` with its neighbours above it.
fn write_row(out: &mut Vec<u8>, form: &ListForm, a: usize) -> Result<(), AllocError>
    requires { a < rows form.now.offsets.items }
    ensures { OnOk result (out.new.items ≡ out.old.items ++ flat_map edge_row (edges_at (listed form.now.offsets.items form.now.neighbours.items) a)) }
{
    for b in Neighbours::of(form, a) {
        if b > a {
            write_line(out, b'p', a, b)?;
        }
    }
    Ok(())
}

/// The list form as a sheet: the size line, the clashes rising, the end.
pub fn write(heap: Global, form: &ListForm) -> Result<Vec<u8>, AllocError>
    ensures { IfOk result (λ v. v.items ≡ written (rows form.now.offsets.items) (edge_list (listed form.now.offsets.items form.now.neighbours.items))) }
{
    let mut out = Vec::new(heap);
    let n = form.size();
    write_line(&mut out, b's', n, form.neighbours().len() / 2)?;
    for a in 0..n {
        write_row(&mut out, form, a)?;
    }
    out.extend_from_slice(b"e\n")?;
    Ok(out)
}
