ghost use Rattle.std.specs.Prelude.{◌≡◌, []};
ghost use Rattle.calls.specs.Fair.{remaining, reply_of};
ghost use Rattle.calls.specs.Laws.{Proves};
ghost use Rattle.calls.specs.Points.{History, graph_at, point_at};
ghost use Rattle.graph.specs.Graph.{Graph};
ghost use Rattle.calls.specs.Table.{takes};
ghost use Rattle.calls.specs.declared.call.Call.TheVariants.{Hide, Show, Order, Climb, Report as Reporting};
ghost use Rattle.calls.specs.declared.call.Reply.TheVariants.{Told};
ghost use Rattle.planner.specs.Explains.{Explains, Serves};

use bounds::Bound;
use calls::call::Report;
use calls::standing::{Operation, Standing};
use graph::refusal::Refusal;
use graph::{Listed, Source};
use layers::HideLayer;
use progress::Progress;

mod buffers;
mod kernel;

pub use kernel::Slip;

/// A planner over a stock, with a bound for its search of clash sets.
#[derive(Drop)]
pub struct Planner<S: Listed + Drop, B: Bound + Drop> {
    layer: HideLayer<S>,
    bound: B,
    progress: Progress,
}

impl<S: Listed + Drop, B: Bound + Drop> Planner<S, B> {
    /// A loose planner that hides nothing.
    pub fn open(source: S, bound: B) -> Planner<S, B>
        ensures { Explains S.Source.graph (S.Source.graph source) [] result }
    {
        let layer = HideLayer::over(source);
        let progress = Progress::new(&layer);
        Planner {
            layer,
            bound,
            progress,
        }
    }

    // Whether the planner takes the operation where it stands.
    fn takes(&self, operation: Operation) -> bool
        ensures { result ≡ takes self.now.progress.standing operation }
    {
        match (self.progress.standing(), operation) {
            (
                Standing::Loose | Standing::Ordered | Standing::Climbed | Standing::Closed,
                Operation::Hide | Operation::Show | Operation::Order,
            ) => true,
            (Standing::Ordered, Operation::Climb) => true,
            (Standing::Climbed, Operation::Pull) => true,
            (Standing::Pulled, Operation::Try) => true,
            (Standing::Pulled | Standing::Won, Operation::PutBack) => true,
            (_, Operation::Report | Operation::Cap) => true,
            (Standing::Loose, _) => false,
            (_, Operation::Block | Operation::Plan) => true,
            _ => false,
        }
    }

    /// Takes the cartridge `c` out of the stock. Refused by 3, 1 and 2.
    pub fn hide(&mut self, c: usize) -> Result<(), Refusal>
        ensures { Serves S.Source.graph self.old (Hide c) (reply_of result) self.new }
    {
        if !self.takes(Operation::Hide) {
            return Err(Refusal::OutOfTurn);
        }
        self.layer.hide(c)?;
        self.progress.loosen(&self.layer);
        Ok(())
    }

    /// Brings the cartridge `c` back, which this planner hid. Refused by 3, 1 and 2.
    pub fn show(&mut self, c: usize) -> Result<(), Refusal>
        ensures { Serves S.Source.graph self.old (Show c) (reply_of result) self.new }
    {
        if !self.takes(Operation::Show) {
            return Err(Refusal::OutOfTurn);
        }
        self.layer.show(c)?;
        self.progress.loosen(&self.layer);
        Ok(())
    }

    /// Orders what is held, and makes the first plan. Refused by 3, and by 4 where the degeneracy is above 63.
    pub fn order(&mut self) -> Result<(), Refusal>
        ensures { Serves S.Source.graph self.old Order (reply_of result) self.new }
    {
        if !self.takes(Operation::Order) {
            return Err(Refusal::OutOfTurn);
        }
        self.progress.order(&self.layer)
    }

    /// Climbs the last cartridge of the order that is not climbed yet, and answers how many are left. Refused by 3.
    pub fn climb(&mut self) -> Result<usize, Refusal>
        ensures { Serves S.Source.graph self.old Climb (remaining result) self.new }
    {
        if !self.takes(Operation::Climb) {
            return Err(Refusal::OutOfTurn);
        }
        self.progress.climb(&self.layer, &self.bound)
    }

    /// The eight numbers. Never refused. Where they are proved, they are the best that can be.
    pub fn report(&self) -> Report
        ensures proves { (g : Graph) (h : History) → Explains S.Source.graph g h self.now → Proves (graph_at g (point_at g h)) (point_at g h) result }
        ensures serves { Serves S.Source.graph self.now Reporting (Told result) self.now }
    {
        self.progress.report()
    }
}
