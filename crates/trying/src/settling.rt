// Drives for a whole stock, from the trial of its kernel.
ghost use Rattle.order.specs.Order.{Dense};
ghost use Rattle.peels.specs.Peels.{CliqueNumber};
ghost use Rattle.putback.specs.Backs.{paint};
ghost use Rattle.trying.specs.Trying.{PulledIn, TryRefused, TriedOut};
ghost use Rattle.std.specs.Prelude.{◌≡◌, MatchResult};

use crate::pulling::{Pulled, block_size, pull};
use crate::rounds::first_yes;
use graph::refusal::Refusal;
use graph::{Listed, Source};
use kernels::Kernel;
use putback::{lay, put_back};

/// From which number of drives on was tried, and which was the first that sufficed.
#[derive(Clone, Copy)]
pub struct Trial {
    pub first: usize,
    pub drives: usize,
}

// Tries the kernel from the block's size on, and gives those that were taken out their drives.
fn settle<S: Listed>(
    source: &S,
    kernel: &Kernel,
    chosen: &[u16],
    taken: &[u16],
    first: usize,
    colours: &mut [u16; 1024],
) -> Result<usize, Refusal>
    requires number { CliqueNumber (S.Source.graph source.now) first }
    requires pulled { PulledIn (S.Source.graph source.now) first chosen.now taken.now kernel.now }
    ensures { MatchResult result (λ k. TriedOut (S.Source.graph source.now) first k (paint colours.new)) (λ _. ⊥) }
{
    let mut table = [0u16; 256];
    let drives = first_yes(kernel, first, &mut table);
    lay(chosen, &table, colours)?;
    put_back(source, taken, colours)?;
    Ok(drives)
}

/// Tries from the size of a largest clash set on how many drives suffice, and finds the drives.
/// Refuses a degeneracy above 63, and then a kernel of more than 256.
pub fn try_out<S: Listed>(source: &S, colours: &mut [u16; 1024]) -> Result<Trial, Refusal>
    ensures { MatchResult result (λ t. TriedOut (S.Source.graph source.now) t.first t.drives (paint colours.new)) (TryRefused (S.Source.graph source.now)) }
{
    let first = block_size(source)?;
    let mut kernel = Kernel::empty();
    let mut taken = [0u16; 1024];
    let Pulled { chosen, gone } = pull(source, first, &mut kernel, &mut taken)?;
    let drives = settle(
        source,
        &kernel,
        chosen.as_slice(),
        &taken[..gone],
        first,
        colours,
    )?;
    Ok(Trial { first, drives })
}
