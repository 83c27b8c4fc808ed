// What is left after peeling, as a kernel.
ghost use Rattle.std.specs.Prelude.{◌≡◌, ◌≤◌, length, take, MatchResult};
ghost use Rattle.finite.specs.Finite.{members};
ghost use Rattle.graph.specs.Graph.{Graph};
ghost use Rattle.order.specs.Order.{Dense};
ghost use Rattle.peels.specs.Peels.{CliqueNumber};
ghost use Rattle.supports.specs.Peel.{alive};
ghost use Rattle.trying.specs.Trying.{PulledIn, Wide};

use arrayvec::ArrayVec;
use bounds::ClassBound;
use climb::climb_all;
use cores::{core, list_living};
use graph::refusal::Refusal;
use graph::{Listed, Source};
use kernels::Kernel;
use order::removal_order;

/// The vertices that are left, rising, and how many were taken out.
// By hand: those taken out stand in the buffer that is lent to `core`, so their number is kept beside it.
#[derive(Drop)]
pub struct Pulled {
    pub chosen: ArrayVec<u16, 1024>,
    pub gone: usize,
}

/// The size of a largest clique.
pub fn block_size<S: Listed>(source: &S) -> Result<usize, Refusal>
    ensures { MatchResult result (λ b. CliqueNumber (S.Source.graph source.now) b) (λ x. (x ≡ Refusal.TooDense) × Dense (S.Source.graph source.now)) }
{
    let mut order = [0u16; 1024];
    let mut block = [0u16; 64];
    let ordered = removal_order(source, &mut order)?;
    let len = ordered.len;
    let count = climb_all(source, &ClassBound {}, &order[..len], &mut block)?;
    Ok(count)
}

/// Peels the graph at `least`, and lists and draws what is left. Refuses more than 256 vertices.
pub fn pull<S: Listed>(
    source: &S,
    least: usize,
    kernel: &mut Kernel,
    taken: &mut [u16; 1024],
) -> Result<Pulled, Refusal>
    ensures { MatchResult result (λ p. (p.gone ≤ 1024) × PulledIn (S.Source.graph source.now) least p.chosen.items (take p.gone taken.new) kernel.new) (λ x. (x ≡ Refusal.TooWide) × Wide (S.Source.graph source.now) least) }
{
    let mut living = [0u8; 1024];
    let gone = core(source, least, &mut living, taken)?;
    let chosen = list_living::<1024>(&living, source.size()).unwrap();
    kernel.draw(source, chosen.as_slice())?;
    Ok(Pulled { chosen, gone })
}
