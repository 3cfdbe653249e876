// Graphs told by a formula, with no memory.
ghost use Rattle.std.specs.Prelude.{◌≡◌, ◌+◌, ◌%◌, ◌<◌, ◌≤◌, ◌⊎◌};
ghost use Rattle.std.proofs.Common.{rules};

use ranking::Graph;

// A count of points, at most 4096.
#[derive(Clone, Copy)]
pub struct Points {
    count: u16,
    ghost small: { count ≤ 4096 },
}

impl Points {
    pub fn of(count: u16) -> Points {
        Points {
            count: count.min(4096),
        }
    }
}

// A grid 32 points wide: a point is followed by the one to its right and by the one below it.
#[derive(Clone, Copy)]
pub struct Grid(pub Points);

impl Graph for Grid {
    ghost size = { λ g. g.0.count };

    ghost followed_by = { λ g x y. (x < g.0.count) × (y < g.0.count) × (((y ≡ x + 1) × (0 < y % 32)) ⊎ (y ≡ x + 32)) };

    ghost within = { λ g x y h. (h.0, h.1) };

    ghost small = { Prim.search rules };

    fn points(&self) -> u16 {
        self.0.count
    }

    fn next_follower(&self, x: u16, from: u16) -> Option<u16> {
        let points = self.0.count;
        let right = x + 1;
        let below = x + 32;
        if from <= right && right < points && right % 32 > 0 {
            Some(right)
        } else if from <= below && below < points {
            Some(below)
        } else {
            None
        }
    }

    fn next_forerunner(&self, y: u16, from: u16) -> Option<u16> {
        if y >= 32 && from <= y - 32 {
            Some(y - 32)
        } else if y % 32 > 0 && from < y {
            Some(y - 1)
        } else {
            None
        }
    }
}

// A chain: a point is followed by the next.
#[derive(Clone, Copy)]
pub struct Chain(pub Points);

impl Graph for Chain {
    ghost size = { λ g. g.0.count };

    ghost followed_by = { λ g x y. (y < g.0.count) × (y ≡ x + 1) };

    ghost within = { Prim.search rules };

    ghost small = { Prim.search rules };

    fn points(&self) -> u16 {
        self.0.count
    }

    fn next_follower(&self, x: u16, from: u16) -> Option<u16> {
        let y = x + 1;
        (from <= y && y < self.0.count).then_some(y)
    }

    fn next_forerunner(&self, y: u16, from: u16) -> Option<u16> {
        (from < y).then(|| y - 1)
    }
}

// A ring: a point is followed by the next, and the last by the first.
#[derive(Clone, Copy)]
pub struct Ring(pub Points);

impl Graph for Ring {
    ghost size = { λ g. g.0.count };

    ghost followed_by = { λ g x y. (x < g.0.count) × (y < g.0.count) × ((y ≡ x + 1) ⊎ ((x + 1 ≡ g.0.count) × (y ≡ 0))) };

    ghost within = { λ g x y h. (h.0, h.1) };

    ghost small = { Prim.search rules };

    fn points(&self) -> u16 {
        self.0.count
    }

    fn next_follower(&self, x: u16, from: u16) -> Option<u16> {
        let y = if x + 1 < self.0.count { x + 1 } else { 0 };
        (from <= y).then_some(y)
    }

    fn next_forerunner(&self, y: u16, from: u16) -> Option<u16> {
        let x = if y > 0 { y - 1 } else { self.0.count - 1 };
        (from <= x).then_some(x)
    }
}
