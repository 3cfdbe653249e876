// Graphs that are told by a lent list of edges.
ghost use Rattle.std.specs.Prelude.{◌↔◌, ◌<◌, ◌≤◌, Contains, IsTrue};
ghost use Rattle.std.proofs.Common.{rules};

use ranking::Graph;

// A point is followed by another if the two, in this order, are one of the edges.
#[derive(Clone, Copy)]
pub struct Edges<'a> {
    pub points: u8,
    pub edges: &'a [(u16, u16)],
    ghost small: { points ≤ 255 },
}

impl Edges<'_> {
    // Whether `(x, y)` is one of the edges.
    fn has(&self, x: u16, y: u16) -> bool
        ensures { IsTrue result ↔ Contains self.now.edges.now (x, y) }
    {
        self.edges.contains(&(x, y))
    }
}

impl Graph for Edges<'_> {
    ghost size = { λ g. g.points };

    ghost followed_by = { λ g x y. (x < g.points) × (y < g.points) × Contains g.edges.now (x, y) };

    ghost within = { λ g x y h. (h.0, h.1) };

    ghost small = { Prim.search rules };

    fn points(&self) -> u16 {
        u16::from(self.points)
    }

    // The next two differ in which end of an edge is given: each is one search.
    fn next_follower(&self, x: u16, from: u16) -> Option<u16> {
        (from..u16::from(self.points)).find(|&y| self.has(x, y))
    }

    fn next_forerunner(&self, y: u16, from: u16) -> Option<u16> {
        (from..u16::from(self.points)).find(|&x| self.has(x, y))
    }
}
