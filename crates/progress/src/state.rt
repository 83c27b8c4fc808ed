ghost use Rattle.std.specs.Prelude.{◌≤◌};

use arrayvec::ArrayVec;
use calls::standing::Standing;
use kernels::Kernel;

mod climbs;
mod closing;
mod fronts;
mod opening;
mod ordering;
mod pulling;
mod reads;
mod trying;
mod writes;

/// The order, the block, the plan and the kernel of a graph, as far as they are found.
#[derive(Drop)]
pub struct Progress {
    standing: Standing,
    // how many vertices are held
    held: usize,
    degeneracy: usize,
    order: ArrayVec<u16, 1024>,
    climbed: usize,
    block: ArrayVec<u16, 64>,
    floor: usize,
    // the drive of each number, 0 where it is not held
    drives: [u16; 1024],
    ceiling: usize,
    kernel: Kernel,
    // the vertex at each place of the kernel
    places: ArrayVec<u16, 256>,
    // those that were taken out, in their order
    taken: ArrayVec<u16, 1024>,
    // the drive found for each place of the kernel
    found: [u16; 256],
    ghost few: { held ≤ 1024 },
    ghost climbs: { climbed ≤ held },
}
