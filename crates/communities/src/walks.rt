// Walks along the edges of a vertex, over a table that leads from edge to edge.
ghost use Rattle.std.specs.Prelude.{◌≡◌, ℕ, ◌+◌, ◌<◌, ◌≤◌, true, false, ◌&&◌, length, take, if◌then◌else◌, ◌==◌, ◌≢◌, nat_lt, slice_index};
ghost use Rattle.finite.specs.Finite.{count, has};
ghost use Rattle.supports.specs.Peel.{alive, Losers};
ghost use Rattle.supports.proofs.Queues.{Queue};
ghost use Rattle.cohesion.specs.Common.{edge_at, far, linked, common, Listing, Chained};
ghost use Rattle.cohesion.proofs.Props.{chained_prop};
ghost use Rattle.cohesion.proofs.Raises.{picked};

use graph::edge::Edge;

// The end of the edge that is not u.
fn far_end(edge: Edge, u: usize) -> usize
    ensures { result ≡ far edge u }
{
    if edge.a as usize == u {
        edge.b as usize
    } else {
        edge.a as usize
    }
}

// A chained list of edges below n, some of which live.
#[derive(Clone, Copy)]
pub struct Edges<'a> {
    pub list: &'a [Edge],
    pub table: &'a [u16],
    pub living: &'a [u8],
    pub n: usize,
    ghost chained: { Chained n list.now table.now } by { chained_prop n list.now table.now },
    ghost lives: { length list.now ≤ length living.now },
}

impl Edges<'_> {
    // Whether the edge at place e lives.
    fn lives(&self, e: usize) -> bool
        requires { e < length self.now.list.now }
        ensures { result ≡ (slice_index self.now.living.now e == 1) }
    {
        self.living[e] == 1
    }

    // Where the table leads from the edge at place e, at its end u.
    fn before(&self, e: usize, u: usize) -> usize
        requires { e < length self.now.list.now }
        ensures { result ≡ (if (edge_at self.now.list.now e).a == u then slice_index self.now.table.now (1024 + e) else slice_index self.now.table.now (17408 + e)) }
    {
        if self.list[e].a as usize == u {
            self.table[1024 + e] as usize
        } else {
            self.table[17408 + e] as usize
        }
    }

    // Turns the mark `from` into `to` at each vertex that a living edge joins to u, and counts them.
    pub fn raise(&self, u: usize, marks: &mut [u8], from: u8, to: u8) -> usize
        requires within { u < self.now.n }
        requires room { self.now.n ≤ length marks.old }
        requires differ { from ≢ to }
        ensures marks { (w : ℕ) → slice_index marks.new w ≡ (if nat_lt w self.now.n && (linked self.now.list.now (alive (length self.now.list.now) self.now.living.now) u w && slice_index marks.old w == from) then to else slice_index marks.old w) }
        ensures total { result ≡ count (λ w. linked self.now.list.now (alive (length self.now.list.now) self.now.living.now) u w && slice_index marks.old w == from) self.now.n }
    {
        let mut total = 0;
        let mut at = self.table[u] as usize;
        while at > 0 {
            let e = at - 1;
            let w = far_end(self.list[e], u);
            if self.lives(e) && marks[w] == from {
                marks[w] = to;
                total += 1;
            }
            at = self.before(e, u);
        }
        total
    }

    // Writes from `start` on the living edges at u whose far end has the mark `value`. Returns where they end.
    pub fn gather(&self, u: usize, marks: &[u8], value: u8, out: &mut [u16], start: usize) -> usize
        requires within { u < self.now.n }
        requires room { self.now.n ≤ length marks.now }
        requires lost { length self.now.list.now ≤ length out.old }
        requires many { count (has (take start out.old)) (length self.now.list.now) ≡ start }
        requires fresh { (c : ℕ) → picked self.now.list.now (alive (length self.now.list.now) self.now.living.now) marks.now value u 0 c ≡ true → has (take start out.old) c ≡ false }
        ensures { Queue (length self.now.list.now) (picked self.now.list.now (alive (length self.now.list.now) self.now.living.now) marks.now value u 0) out.old out.new start result }
    {
        let mut len = start;
        let mut at = self.table[u] as usize;
        while at > 0 {
            let e = at - 1;
            let w = far_end(self.list[e], u);
            if self.lives(e) && marks[w] == value {
                // By hand: the buffer is the caller's.
                out[len] = e as u16;
                len += 1;
            }
            at = self.before(e, u);
        }
        len
    }

    // Writes the living edges that make a triangle with two living edges, one of them the edge at place x.
    pub fn triangles(&self, x: usize, marks: &mut [u8], out: &mut [u16]) -> usize
        requires member { alive (length self.now.list.now) self.now.living.now x ≡ true }
        requires room { self.now.n ≤ length marks.old }
        requires clear { (k : ℕ) → k < self.now.n → slice_index marks.old k ≡ 0 }
        requires lost { length self.now.list.now ≤ length out.old }
        ensures losers { Losers (common self.now.n self.now.list.now) (length self.now.list.now) (alive (length self.now.list.now) self.now.living.now) x (take result out.new) }
        ensures fits { result ≤ length out.new }
        ensures rest { (k : ℕ) → self.now.n ≤ k → slice_index marks.new k ≡ slice_index marks.old k }
    {
        let edge = self.list[x];
        let a = edge.a as usize;
        let b = edge.b as usize;
        self.raise(a, marks, 0, 1);
        self.raise(b, marks, 1, 2);
        let some = self.gather(a, marks, 2, out, 0);
        self.gather(b, marks, 2, out, some)
    }
}

// Whether n is small enough, and the list rises and stays below n.
pub fn is_listing(list: &[Edge], n: usize) -> bool
    ensures yes { result ≡ true → Listing n list.now }
    ensures no { result ≡ false → Listing n list.now → ⊥ }
{
    if n > 1024 {
        return false;
    }
    let mut previous = None;
    for e in list {
        if e.a >= e.b || e.b as usize >= n || !e.is_above(previous) {
            return false;
        }
        previous = Some(*e);
    }
    true
}

// Fills the table: the last edge of each vertex, and the edge before each edge at either end. By hand: the trait lends
// one table of u16, so 0 stands for no edge, and e + 1 for edge e.
pub fn chain(list: &[Edge], n: usize, table: &mut [u16])
    requires listing { Listing n list.now }
    requires few { length list.now ≤ 16384 }
    requires long { 33792 ≤ length table.old }
    ensures { Chained n list.now table.new }
{
    table[..n].fill(0);
    for (j, edge) in list.iter().enumerate() {
        let a = edge.a as usize;
        let b = edge.b as usize;
        table[1024 + j] = table[a];
        table[17408 + j] = table[b];
        table[a] = j as u16 + 1;
        table[b] = j as u16 + 1;
    }
}
