// The channel dependency graph, over virtual channels, as a dependency table tells it.
ghost use Rattle.std.specs.Prelude.{◌≡◌, ℕ, ◌+◌, ◌*◌, ◌<◌, ◌/◌, ◌≤◌, ◌↔◌, List, ◌≢◌, slice_index};
ghost use Rattle.std.specs.Iterator.{IsFinite};
ghost use Rattle.rack.specs.declared.numbers.Channel.{Channel};
ghost use Rattle.ranking.specs.Graphs.{Next};
ghost use Rattle.rack.specs.Racks.{channel_count};
ghost use Rattle.routing.specs.Turns.{turn_place};
ghost use Rattle.std.proofs.Common.{arith};
ghost use Rattle.checking.specs.Words.{word_of, FollowedBy};
ghost use Rattle.checking.specs.Searches.{GivesAscending, Computes, SetOn};

use crate::words::lowest;
use rack::numbers::{Channel, Port};
use rack::rack::Rack;
use rack::rack::ask::way_back;
use ranking::Graph;
use routing::rows::{turn, turn_port};
use routing::sizes::virtual_channels;

// Points are plain numbers here: virtual channel 8c + q is lane q of channel c.
#[derive(Clone, Copy)]
pub struct VirtualChannels<'a> {
    pub rack: &'a Rack,
    pub dependencies: &'a [u64],
}

// The word at the place of a channel and a port, side by side as `turn` takes them; 0 beyond the table.
pub(crate) fn word_at(dependencies: &[u64], channel: Channel, port: Port) -> u64
    ensures { result ≡ slice_index dependencies.now (turn_place channel.0 port.0) }
{
    dependencies.get(turn(channel, port)).copied().unwrap_or(0)
}

// The dependency word of the turn from one channel to another; 0 for what is no turn, or lies beyond the table.
pub fn word(rack: &Rack, dependencies: &[u64], arriving: Channel, leaving: Channel) -> u64
    ensures { result ≡ word_of rack.now dependencies.now arriving.0 leaving.0 }
{
    turn_port(rack, arriving, leaving).map_or(0, |port| word_at(dependencies, arriving, port))
}

// From which lane on to look at a channel, to look at virtual channels from `from` on, where not all of its own are below. That is a plain number, here and below, since a graph knows no channels.
fn low_lane(channel: Channel, from: u16) -> u8
    ensures { from / 8 ≤ channel.0 → (i : ℕ) → i < 8 → (result ≤ i ↔ from ≤ 8 * channel.0 + i) }
{
    if channel.0 == from / 8 {
        (from % 8) as u8
    } else {
        0
    }
}

// The lowest virtual channel from `from` on, on the channels, whose bit in its channel's word is set: bit `first` + `step` i for lane i.
// Only channels below 8192 have a word that is not 0. It is a `for`, since the closure of a `find_map` would need clauses of its own.
fn first_set<I, F>(channels: I, from: u16, first: u8, step: u8, word: F) -> Option<u16>
where
    I: Iterator<Item = Channel> + Drop,
    F: Fn(Channel) -> u64,
    requires can { I.can_next channels }
    requires ends { IsFinite (I.remaining channels) }
    requires callable { F.IsAlwaysCallable word }
    requires small { (c : Channel) (w : ℕ) → F.post word c w → w ≢ 0 → c.0 < 8192 }
    requires bits { first + 7 * step < 64 }
    ensures { (list : List Channel) (words : ℕ → ℕ) → GivesAscending I.next_gives channels list → Computes (F.post word) words → Next (SetOn list words first step) from result }
{
    for channel in channels {
        if channel.0 < from / 8 {
            continue;
        }
        if let Some(lane) = lowest(word(channel), first, step, low_lane(channel, from)) {
            return Some(8 * channel.0 + u16::from(lane));
        }
    }
    None
}

impl Graph for VirtualChannels<'_> {
    ghost size = { λ g. 8 * channel_count g.rack.now };

    ghost followed_by = { λ g x y. FollowedBy g.rack.now g.dependencies.now x y };

    fn points(&self) -> u16 {
        virtual_channels(self.rack) as u16
    }

    fn next_follower(&self, x: u16, from: u16) -> Option<u16> {
        let arriving = Channel(x / 8);
        let switch = self.rack.switch_entered(arriving)?;
        let channels = self.rack.leaving(switch).iter().copied();
        first_set(channels, from, 8 * (x % 8) as u8, 1, |leaving| {
            word(self.rack, self.dependencies, arriving, leaving)
        })
    }

    fn next_forerunner(&self, y: u16, from: u16) -> Option<u16> {
        let leaving = Channel(y / 8);
        let ends = self.rack.ends(leaving)?;
        let channels = self
            .rack
            .leaving(ends.tail.node)
            .iter()
            .map(|channel| way_back(*channel));
        first_set(channels, from, (y % 8) as u8, 8, |arriving| {
            word(self.rack, self.dependencies, arriving, leaving)
        })
    }

    ghost within = { λ g x y h. (h.0, h.1) };

    ghost small = { λ g. Prim.omega (arith, g.rack.now.rules.0.1) };
}
