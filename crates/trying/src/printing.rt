// The lines of a trial.
ghost use Rattle.std.specs.Prelude.{◌≡◌, ◌≤◌, ◌++◌, length, IfOk, OnOk};
ghost use Rattle.printout.specs.Printed.{drive_lines};
ghost use Rattle.trying.specs.Shown.{try_lines};

use crate::settling::Trial;
use fields::write_numbers;
use printout::write_drives;
use std::alloc::{AllocError, Global};

// The noes from `first` on, and the yes.
fn write_tries(out: &mut Vec<u8>, first: usize, drives: usize) -> Result<(), AllocError>
    requires { first ≤ drives }
    ensures { OnOk result (out.new.items ≡ out.old.items ++ try_lines first drives) }
{
    for k in first..drives {
        write_numbers(out, b't', &[k, 0])?;
    }
    write_numbers(out, b't', &[drives, 1])?;
    Ok(())
}

/// All lines of a trial.
pub fn write_trial(heap: Global, trial: Trial, colours: &[u16]) -> Result<Vec<u8>, AllocError>
    requires rises { trial.first ≤ trial.drives }
    ensures { IfOk result (λ v. v.items ≡ try_lines trial.first trial.drives ++ drive_lines colours.now (length colours.now)) }
{
    let mut out = Vec::new(heap);
    write_tries(&mut out, trial.first, trial.drives)?;
    write_drives(&mut out, colours)?;
    Ok(out)
}
