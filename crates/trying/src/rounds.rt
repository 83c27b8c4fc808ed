// One number of drives after another.
ghost use Rattle.std.specs.Prelude.{◌≤◌, length};
ghost use Rattle.kernels.specs.Kernels.{places};
ghost use Rattle.trials.specs.Trials.{Tried};
ghost use Rattle.trying.specs.Trying.{FirstYes};

use kernels::Kernel;
use trials::colour;

// Whether the kernel has a proper colouring in 1 to `k`, which then stands in the table.
fn try_at(kernel: &Kernel, table: &mut [u16], k: usize) -> bool
    requires { places kernel.now ≤ length table.old }
    ensures { Tried kernel.now k table.old table.new result }
{
    colour(kernel, table, k).unwrap()
}

// The first number from `from` on in which the kernel has a proper colouring, which then stands in the table.
pub fn first_yes(kernel: &Kernel, from: usize, table: &mut [u16]) -> usize
    requires { places kernel.now ≤ length table.old }
    ensures { FirstYes kernel.now from result table.new }
{
    // By hand: a try writes the table, so it is no test for a chain over numbers.
    let mut k = from;
    while !try_at(kernel, table, k) {
        k += 1;
    }
    k
}
