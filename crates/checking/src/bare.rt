// The bare check, over channels: a channel is followed by another if the word of their turn is not 0.
ghost use Rattle.std.specs.Prelude.{◌≡◌, ℕ, ◌<◌, Bool, List, Decides, ◌≢◌, slice_index};
ghost use Rattle.std.specs.Iterator.{IsFinite};
ghost use Rattle.rack.specs.declared.numbers.Channel.{Channel};
ghost use Rattle.rack.specs.Racks.{channel_count, tail_port};
ghost use Rattle.routing.specs.Turns.{turn_place};
ghost use Rattle.std.proofs.Common.{arith};
ghost use Rattle.ranking.specs.Graphs.{Next};
ghost use Rattle.checking.specs.Words.{ChannelFollowedBy};
ghost use Rattle.checking.specs.Searches.{GivesAscending, Computes, MarkedOf};
ghost use Rattle.checking.specs.Answers.{BareChecked};

use crate::fault::CheckFault;
use crate::graph::word_at;
use rack::numbers::Channel;
use rack::rack::Rack;
use rack::rack::ask::way_back;
use ranking::{Graph, rank};
use routing::sizes::dependency_words;

// Of one shape with `VirtualChannels`: the type alone says which graph a table is read as.
// A struct that both hold would add a layer and no more, since `word` and `check_channels` are public and take rack and table side by side.
#[derive(Clone, Copy)]
pub struct Channels<'a> {
    pub rack: &'a Rack,
    pub dependencies: &'a [u64],
}

impl Channels<'_> {
    // Whether the table has a word that is not 0 for the channel and the port by which the other leaves.
    fn is_marked(&self, arriving: Channel, leaving: Channel) -> bool
        ensures { Decides result ((leaving.0 < channel_count self.now.rack.now) × (slice_index self.now.dependencies.now (turn_place arriving.0 (tail_port self.now.rack.now leaving.0)) ≢ 0)) }
    {
        self.rack.ends(leaving).is_some_and(|ends| word_at(
            self.dependencies,
            arriving,
            ends.tail.port,
        ) != 0)
    }
}

// The lowest of the channels, from `from` on, that is marked. `from` is a plain number, since a graph knows no channels.
fn first_marked<I, F>(mut channels: I, from: u16, is_marked: F) -> Option<u16>
where
    I: Iterator<Item = Channel> + Drop,
    F: Fn(Channel) -> bool,
    requires can { I.can_next channels }
    requires ends { IsFinite (I.remaining channels) }
    requires callable { F.IsAlwaysCallable is_marked }
    ensures { (list : List Channel) (marked : ℕ → Bool) → GivesAscending I.next_gives channels list → Computes (F.post is_marked) marked → Next (MarkedOf list marked) from result }
{
    channels
        .find(|channel| channel.0 >= from && is_marked(*channel))
        .map(|channel| channel.0)
}

impl Graph for Channels<'_> {
    ghost size = { λ g. channel_count g.rack.now };

    ghost followed_by = { λ g c d. ChannelFollowedBy g.rack.now g.dependencies.now c d };

    fn points(&self) -> u16 {
        self.rack.channel_count() as u16
    }

    fn next_follower(&self, x: u16, from: u16) -> Option<u16> {
        let arriving = Channel(x);
        let ends = self.rack.ends(arriving)?;
        let channels = self.rack.leaving(ends.head.node).iter().copied();
        first_marked(channels, from, |leaving| self.is_marked(arriving, leaving))
    }

    fn next_forerunner(&self, y: u16, from: u16) -> Option<u16> {
        let leaving = Channel(y);
        let ends = self.rack.ends(leaving)?;
        let channels = self
            .rack
            .leaving(ends.tail.node)
            .iter()
            .map(|channel| way_back(*channel));
        first_marked(channels, from, |arriving| self.is_marked(arriving, leaving))
    }

    ghost within = { λ g x y h. (h.0, h.1) };

    ghost small = { λ g. Prim.omega (arith, g.rack.now.rules.0.1) };
}

// The greatest rank of a channel, where channels do not follow one another in a ring.
pub fn check_channels<'x>(
    rack: &'x Rack,
    dependencies: &'x [u64],
    ranks: &mut [u16],
    ring: &mut [u16],
) -> Result<u16, CheckFault>
    ensures { BareChecked rack.now dependencies.now ranks.old ranks.new ring.old ring.new result }
{
    if dependencies.len() < dependency_words(rack) {
        return Err(CheckFault::Tables);
    }
    let graph = Channels { rack, dependencies };
    let greatest = rank(&graph, ranks, ring)?;
    Ok(greatest)
}
