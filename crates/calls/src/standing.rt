// Where a planner stands, and what it can be asked.
ghost use Rattle.std.specs.Prelude.{◌≡◌};
ghost use Rattle.calls.specs.Table.{standing_number};

// Where a planner stands.
#[derive(Clone, Copy, PartialEq, Eq, Debug)]
pub enum Standing {
    // there is no order, no block and no plan
    Loose,
    // there are an order and a plan, and not every cartridge is climbed
    Ordered,
    // every cartridge is climbed
    Climbed,
    // the kernel is out
    Pulled,
    // the kernel is out, and its drives are found
    Won,
    // the kernel is put back with the drives found
    Closed,
}

// The number that stands for the standing.
impl From<Standing> for u8 {
    ghost from_gives = { λ s n. n ≡ standing_number s };

    fn from(standing: Standing) -> Self {
        match standing {
            Standing::Loose => 0,
            Standing::Ordered => 1,
            Standing::Climbed => 2,
            Standing::Pulled => 3,
            Standing::Won => 4,
            Standing::Closed => 5,
        }
    }
}

// What a planner can be asked, without what goes with it.
#[derive(Clone, Copy, PartialEq, Eq, Debug)]
pub enum Operation {
    Hide,
    Show,
    Order,
    Climb,
    Pull,
    Try,
    PutBack,
    Report,
    Cap,
    Block,
    Plan,
}
