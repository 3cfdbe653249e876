// Where a packet goes next.
ghost use Rattle.std.specs.Prelude.{◌≡◌, ℕ, true, false, ◌&&◌, Option as Maybe, MatchOption};
ghost use Rattle.rack.specs.Racks.{EntersSwitch, Host};
ghost use Rattle.routing.specs.Sources.{numbers, enters_switch, is_end};

use rack::numbers::{Channel, Node};
use rack::rack::Rack;

// A fixed assignment from an arriving channel and a destination to a channel or none.
pub trait ForwardingSource {
    ghost route: { Self → ℕ → ℕ → Maybe ℕ };

    fn next_channel(&self, arriving: Channel, destination: Node) -> Option<Channel>
        ensures { numbers result ≡ route self.now arriving.0 destination.0 };
}

// The switch that a channel enters, where the destination is a host; none elsewhere.
pub(crate) fn switch_towards(rack: &Rack, arriving: Channel, destination: Node) -> Option<Node>
    ensures { MatchOption result (enters_switch rack.now arriving.0 && is_end rack.now destination.0 ≡ false) (λ w. EntersSwitch rack.now arriving.0 w.0 × Host rack.now destination.0) }
{
    rack.switch_entered(arriving)
        .filter(|_| rack.is_host(destination))
}
