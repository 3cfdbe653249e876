// Any finite graph whose points are the numbers below their count. A graph should find a follower or a forerunner without
// going over all points, since the ranking asks for each follower anew in every round.
ghost use Rattle.std.specs.Prelude.{◌≡◌, ℕ, ◌<◌, ◌≤◌};
ghost use Rattle.ranking.specs.Graphs.{Within, Next};

pub trait Graph {
    // The count of points.
    ghost size: { Self → ℕ };

    // `followed_by g x y` says that the point `x` is followed by `y`.
    ghost followed_by: { Self → ℕ → ℕ → Type 0 };

    // The count of points.
    fn points(&self) -> u16
        ensures { result ≡ size self.now };

    // The least follower of `x` from `from` on.
    fn next_follower(&self, x: u16, from: u16) -> Option<u16>
        requires { x < size self.now }
        ensures { Next (followed_by self.now x) from result };

    // The least forerunner of `y` from `from` on.
    fn next_forerunner(&self, y: u16, from: u16) -> Option<u16>
        requires { y < size self.now }
        ensures { Next (λ x. followed_by self.now x y) from result };

    // A graph relates only its own points.
    ghost within: { (g : Self) → Within (followed_by g) (size g) };

    // The ranking marks points in the ranks table by numbers up to twice their count.
    ghost small: { (g : Self) → size g ≤ 32767 };
}
