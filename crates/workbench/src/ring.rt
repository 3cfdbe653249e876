// The ring that a refused plan shows, so that its cables can be found on the rack.
ghost use Rattle.std.specs.Prelude.{◌≡◌, ◌++◌, IfOk, OnOk, Some, string_bytes};
ghost use Rattle.std.specs.List.{flat_map};
ghost use Rattle.workbench.specs.Rings.{place_of, spot_text, place_text, ring_line};

use rack::cable::End;
use rack::numbers::Channel;
use rack::rack::Rack;
use std::alloc::AllocError;
use std::fmt;

// A port of a node.
#[derive(Clone, Copy, PartialEq, Eq, Debug)]
pub struct Spot(pub End);

impl fmt::Display for Spot {
    ghost output = { λ s. Some (spot_text s) };

    fn fmt<W: fmt::Write>(&self, f: &mut fmt::Formatter<W>) -> fmt::Result {
        let node = self.0.node.0;
        let port = self.0.port.0;
        write!(f, "node {node} port {port}")
    }
}

// Where a virtual channel is on the rack: its channel and lane, and the ports that it leaves and enters.
#[derive(Clone, Copy, PartialEq, Eq, Debug)]
pub struct Place {
    pub channel: u16,
    pub lane: u16,
    pub tail: Spot,
    pub head: Spot,
}

impl fmt::Display for Place {
    ghost output = { λ p. Some (place_text p) };

    fn fmt<W: fmt::Write>(&self, f: &mut fmt::Formatter<W>) -> fmt::Result {
        let Place {
            channel,
            lane,
            tail,
            head,
        } = *self;
        writeln!(f, "channel {channel} lane {lane} from {tail} to {head}")
    }
}

impl Place {
    // The place of the virtual channel of that number; none if the rack has no such channel.
    pub fn of(rack: &Rack, number: u16) -> Option<Place>
        ensures { result ≡ place_of rack.now number }
    {
        let channel = number / 8;
        let ends = rack.ends(Channel(channel))?;
        Some(Place {
            channel,
            lane: number % 8,
            tail: Spot(ends.tail),
            head: Spot(ends.head),
        })
    }
}

// Prints the line of one virtual channel.
fn print_place(out: &mut String, rack: &Rack, number: u16) -> Result<(), AllocError>
    ensures { OnOk result (string_bytes out.new ≡ string_bytes out.old ++ ring_line rack.now number) }
{
    match Place::of(rack, number) {
        Some(place) => write!(out, "{place}"),
        None => Ok(()),
    }
}

// The lines of the virtual channels of a ring, behind what is printed already.
pub fn with_ring(rack: &Rack, ring: &[u16], out: String) -> Result<String, AllocError>
    ensures { IfOk result (λ s. string_bytes s ≡ string_bytes out ++ flat_map (ring_line rack.now) ring.now) }
{
    let mut out = out;
    for number in ring {
        print_place(&mut out, rack, *number)?;
    }
    Ok(out)
}
