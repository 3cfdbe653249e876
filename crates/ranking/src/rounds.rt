// The rounds: round `r` finds the points that end a chain of `r + 1` steps.
ghost use Rattle.std.specs.Prelude.{◌≡◌, ◌+◌, ◌<◌, length, EachIndex, IfOk, IfErr, slice_index};
ghost use Rattle.ranking.specs.Graphs.{Ranked};
ghost use Rattle.ranking.specs.Workings.{Raised, Level, Turned, Stuck};

use crate::followers::Followers;
use crate::graphs::Graph;

// Sets the place of each follower of `x` to `r + 1`.
fn raise<G: Graph>(graph: &G, ranks: &mut [u16], x: u16, r: u16)
    requires fits { length ranks.old ≡ G.size graph.now }
    requires inside { x < G.size graph.now }
    requires small { r < G.size graph.now }
    ensures { Raised (G.followed_by graph.now) x (r + 1) ranks.old ranks.new }
{
    for y in Followers::of(graph, x) {
        ranks[y as usize] = r + 1;
    }
}

// Round `r`: raises the followers of each point that ends a chain of `r` steps.
fn round<G: Graph>(graph: &G, ranks: &mut [u16], r: u16)
    requires fits { length ranks.old ≡ G.size graph.now }
    requires small { r < G.size graph.now }
    requires level { Level (G.followed_by graph.now) (G.size graph.now) r ranks.old }
    ensures { Turned (G.followed_by graph.now) (G.size graph.now) r ranks.old ranks.new }
{
    // By number, since `raise` writes to the ranks meanwhile.
    for x in 0..graph.points() {
        if ranks[x as usize] >= r {
            raise(graph, ranks, x, r);
        }
    }
}

// Where the rounds rank no further point: some point stands at `top`, and each that does has a forerunner there.
#[derive(Clone, Copy)]
pub struct Stall {
    pub top: u16,
}

// Goes round, from zeros on, until each point is ranked, or a round ranks none.
pub fn settle<G: Graph>(graph: &G, ranks: &mut [u16]) -> Result<u16, Stall>
    requires fits { length ranks.old ≡ G.size graph.now }
    requires zeros { EachIndex ranks.old (λ y. slice_index ranks.old y ≡ 0) }
    ensures ranked { IfOk result (λ top. Ranked (G.followed_by graph.now) (G.size graph.now) top ranks.old ranks.new) }
    ensures stuck { IfErr result (λ stall. Stuck (G.followed_by graph.now) (G.size graph.now) stall.top ranks.new) }
{
    for r in 0..graph.points() {
        round(graph, ranks, r);
        let top = r + 1;
        if !ranks.contains(&top) {
            return Ok(r);
        }
        if !ranks.contains(&r) {
            return Err(Stall { top });
        }
    }
    // Only a graph without points comes here.
    Ok(0)
}
