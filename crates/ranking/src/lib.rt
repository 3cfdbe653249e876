// Ranks of the points of any finite graph, or a ring of it. Tests and a benchmark stand in `ranking_bench`.
#![tactic(auto)]

ghost use Rattle.std.specs.Prelude.{◌≡◌, length, true, ◌↔◌, is_ok, Ok, Err};
ghost use Rattle.ranking.specs.declared.faults.RankFault.TheVariants.{Tables};
ghost use Rattle.ranking.specs.Graphs.{Answered, Room, Short, NoRing, HaveRanks};

mod faults;
mod followers;
mod graphs;
mod rings;
mod rounds;

pub use faults::RankFault;
pub use graphs::Graph;

// Writes the rank of each point to `ranks` and answers the greatest, or writes a ring to `ring` and answers its length.
//
// It needs no memory but the two tables. A round looks through the ranks and asks once for the followers of each point
// that has no rank yet, and there is a round for each rank from 0 to the greatest: the work grows with
// (points + dependencies) x (greatest rank + 1) at most. Where there is a ring, the points that no ring leads to are
// ranked so, one more round ranks none, and the walk back asks at most once for the forerunners of each point.
pub fn rank<G: Graph>(graph: &G, ranks: &mut [u16], ring: &mut [u16]) -> Result<u16, RankFault>
    ensures answer { Answered (G.followed_by graph.now) (G.size graph.now) ranks.old ranks.new ring.old ring.new result }
    ensures refused { result ≡ Err Tables ↔ Short (G.size graph.now) ranks.old ring.old }
    ensures ranked { Room (G.size graph.now) ranks.old ring.old → (is_ok result ≡ true ↔ NoRing (G.followed_by graph.now)) }
    ensures ranks_iff_no_ring { Room (G.size graph.now) ranks.old ring.old → (HaveRanks (G.followed_by graph.now) (G.size graph.now) ↔ NoRing (G.followed_by graph.now)) }
{
    let n = graph.points() as usize;
    if ranks.len() < n || ring.len() < n {
        return Err(RankFault::Tables);
    }
    rank_points(graph, &mut ranks[..n], &mut ring[..n])
}

// `rank`, in tables that have a place for each point and no more. They are lent, and this stands as a clause of each function below: in a struct each would have to say that they are still the same tables.
fn rank_points<G: Graph>(graph: &G, ranks: &mut [u16], ring: &mut [u16]) -> Result<u16, RankFault>
    requires ranks_fit { length ranks.old ≡ G.size graph.now }
    requires ring_fits { length ring.old ≡ G.size graph.now }
    ensures { Answered (G.followed_by graph.now) (G.size graph.now) ranks.old ranks.new ring.old ring.new result }
{
    ranks.fill(0);
    // no `map_err`: the error is made by a call that changes the ring
    match rounds::settle(graph, ranks) {
        Ok(top) => Ok(top),
        Err(stall) => {
            let length = rings::show(graph, ranks, stall, ring);
            Err(RankFault::Ring { length })
        }
    }
}
