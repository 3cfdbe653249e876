// The followers of a point as an iterator.
ghost use Rattle.std.specs.Prelude.{◌≡◌, ◌+◌, ◌-◌, ◌<◌, MatchOption};
ghost use Rattle.std.specs.Iterator.{at_most};
ghost use Rattle.ranking.specs.Graphs.{Next};

use crate::graphs::Graph;

// The followers of a point from `from` on, the least first.
#[derive(Drop)]
pub struct Followers<'a, G: Graph> {
    pub graph: &'a G,
    pub point: u16,
    pub from: u16,
    ghost inside: { point < G.size graph.now },
}

impl<'a, G: Graph> Followers<'a, G> {
    pub fn of(graph: &'a G, point: u16) -> Self
        requires { point < G.size graph.now }
        ensures graph { result.graph.now ≡ graph.now }
        ensures point { result.point ≡ point }
        ensures from { result.from ≡ 0 }
    {
        Followers {
            graph,
            point,
            from: 0,
        }
    }
}

impl<G: Graph> Iterator for Followers<'_, G> {
    type Item = u16;

    ghost next_gives = { λ s r t. (t.graph.now ≡ s.graph.now) × (t.point ≡ s.point) × Next (G.followed_by s.graph.now s.point) s.from r × MatchOption r (t.from ≡ s.from) (λ y. t.from ≡ y + 1) };

    ghost remaining = { λ s. at_most (G.size s.graph.now - s.from) };

    fn next(&mut self) -> Option<u16> {
        let y = self.graph.next_follower(self.point, self.from)?;
        self.from = y + 1;
        Some(y)
    }
}

// A graph with each step turned round: the followers here are the forerunners there.
#[derive(Clone, Copy)]
pub struct Reversed<'a, G>(pub &'a G);

impl<G: Graph> Graph for Reversed<'_, G> {
    ghost size = { λ g. G.size g.0.now };

    ghost followed_by = { λ g x y. G.followed_by g.0.now y x };

    ghost within = { λ g x y h. let w = G.within g.0.now y x h in (w.1, w.0) };

    ghost small = { λ g. G.small g.0.now };

    fn points(&self) -> u16 {
        self.0.points()
    }

    fn next_follower(&self, x: u16, from: u16) -> Option<u16> {
        self.0.next_forerunner(x, from)
    }

    fn next_forerunner(&self, y: u16, from: u16) -> Option<u16> {
        self.0.next_follower(y, from)
    }
}
