ghost use Rattle.std.specs.Prelude.{◌≡◌};
ghost use Rattle.graph.specs.Edges.{above};

// A pair of vertices that clash, the smaller first. Edges rise by the first ends, and by the second where the first are
// equal.
#[derive(Clone, Copy, PartialEq, Eq, PartialOrd, Ord, Debug)]
pub struct Edge {
    pub a: u16,
    pub b: u16,
}

impl Edge {
    // Whether it comes after `previous`, if there is one.
    pub fn is_above(&self, previous: Option<Edge>) -> bool
        ensures { result ≡ above previous self.now }
    {
        previous.is_none_or(|p| p < *self)
    }
}
