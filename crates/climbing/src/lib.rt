// The theory of the climb: a largest clique of a graph, vertex by vertex from the end of an order.
#![tactic(auto)]

ghost use Rattle.climbing.specs.Theorems.{SomeLargest, OneNumber, LaterNeighbours, NoneClimbed, AllClimbed, OrderOnce, OrderFew};

// The clique number of a graph is one more than the largest among those of the later neighbours of its vertices.
pub fn climbing_stands()
    ensures some { SomeLargest }
    ensures one { OneNumber }
    ensures number { LaterNeighbours }
    ensures none { NoneClimbed }
    ensures all { AllClimbed }
    ensures once { OrderOnce }
    ensures few { OrderFew }
{}
