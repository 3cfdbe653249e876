// The ring: a walk back along forerunners comes to a point again.
ghost use Rattle.std.specs.Prelude.{◌≡◌, ℕ, ◌+◌, ◌-◌, ◌<◌, ◌≤◌, length, MatchOption, slice_index};
ghost use Rattle.ranking.specs.Graphs.{Ringed};
ghost use Rattle.ranking.specs.Workings.{Stuck, Marked, Closed, Gathered};

use crate::followers::{Followers, Reversed};
use crate::graphs::Graph;
use crate::rounds::Stall;

// The first forerunner of `y` that stands at `top` or more.
fn before<G: Graph>(graph: &G, ranks: &[u16], y: u16, top: u16) -> Option<u16>
    requires fits { length ranks.now ≡ G.size graph.now }
    requires inside { y < G.size graph.now }
    ensures { MatchOption result ((x : ℕ) → top ≤ slice_index ranks.now x → G.followed_by graph.now x y → ⊥) (λ x. (top ≤ slice_index ranks.now x) × G.followed_by graph.now x y) }
{
    let back = Reversed(graph);
    Followers::of(&back, y).find(|x| ranks[usize::from(*x)] >= top)
}

// The first and the last mark of a ring.
#[derive(Clone, Copy)]
struct Span {
    lo: u16,
    hi: u16,
}

impl Span {
    // How many marks there are.
    fn count(self) -> u16
        requires ordered { self.lo ≤ self.hi }
        requires short { self.hi < self.lo + 32767 }
        ensures { result ≡ self.hi - self.lo + 1 }
    {
        self.hi - self.lo + 1
    }
}

// Walks back from a point of the stall, and marks each point on the way, until one comes again.
fn walk<G: Graph>(graph: &G, ranks: &mut [u16], stall: Stall) -> Span
    requires fits { length ranks.old ≡ G.size graph.now }
    requires stuck { Stuck (G.followed_by graph.now) (G.size graph.now) stall.top ranks.old }
    ensures { Closed (G.followed_by graph.now) (G.size graph.now) result.lo result.hi ranks.new }
{
    let top = stall.top;
    let Some(first) = ranks.iter().position(|&rank| rank == top) else {
        unreachable()
    };
    let mut y = first as u16;
    let mut mark = top + 1;
    // No `for` over the marks: it ends where a point comes again, and a range's end would be one more to rule out.
    'steps: loop {
        ranks[y as usize] = mark;
        let Some(x) = before(graph, ranks, y, top) else {
            unreachable()
        };
        let seen = ranks[x as usize];
        if seen > top {
            return Span { lo: seen, hi: mark };
        }
        y = x;
        mark += 1;
    }
}

// Writes the points with the marks of `span` to `ring`, the last mark first.
fn gather(ranks: &[u16], span: Span, ring: &mut [u16])
    requires fits { length ring.old ≡ length ranks.now }
    requires small { length ranks.now ≤ 32767 }
    requires marked { Marked (length ranks.now) span.lo span.hi ranks.now }
    ensures { Gathered (length ranks.now) span.lo span.hi ranks.now ring.old ring.new }
{
    for (z, &mark) in ranks.iter().enumerate() {
        if mark >= span.lo {
            ring[(span.hi - mark) as usize] = z as u16;
        }
    }
}

// Writes a ring to `ring`, clears `ranks`, and answers the ring's length.
pub fn show<G: Graph>(graph: &G, ranks: &mut [u16], stall: Stall, ring: &mut [u16]) -> u16
    requires ranks_fit { length ranks.old ≡ G.size graph.now }
    requires ring_fits { length ring.old ≡ G.size graph.now }
    requires stuck { Stuck (G.followed_by graph.now) (G.size graph.now) stall.top ranks.old }
    ensures { Ringed (G.followed_by graph.now) (G.size graph.now) result ranks.old ranks.new ring.old ring.new }
{
    let span = walk(graph, ranks, stall);
    gather(ranks, span, ring);
    ranks.fill(0);
    span.count()
}
