// Which lane a packet takes.
ghost use Rattle.std.specs.Prelude.{◌≡◌, ℕ};

use rack::numbers::{Channel, Lane, Level};

// A fixed assignment from an arriving channel, a leaving channel and a level to a lane.
pub trait LaneMap {
    ghost lanes: { Self → ℕ → ℕ → ℕ → ℕ };

    fn lane(&self, arriving: Channel, leaving: Channel, level: Level) -> Lane
        ensures { result.number ≡ lanes self.now arriving.0 leaving.0 level.number };
}
