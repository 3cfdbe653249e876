// The lane table: a row of sixteen lanes, one for each level, for every channel and every port of its head.
ghost use Rattle.std.specs.Prelude.{◌≡◌, ℕ, ◌+◌, ◌*◌, ◌<◌, ◌≤◌, min, true, false, ◌++◌, length, take, drop, MatchOption, slice_index, slice_set};
ghost use Rattle.rack.specs.Racks.{tail_port};
ghost use Rattle.routing.specs.Turns.{turn_place, row_start, turns, stored_lane, RowsApart, RowsInside};

use crate::map::LaneMap;
use rack::numbers::{Channel, Lane, Level, Port};
use rack::rack::Rack;

// How many ports a row or a dependency word stands for, per channel.
pub const PORTS: usize = 36;

// How many levels a row has.
pub const LEVELS: usize = 16;

// The number of the turn from a channel to a port, 1 to 36, of its head: what has one entry per turn has it there.
// Channel and port side by side, here and below: of a turn each caller has the arriving channel at hand, and asks for the port alone (`turn_port`); a struct would carry the channel there and back.
pub fn turn(channel: Channel, port: Port) -> usize
    ensures { result ≡ turn_place channel.0 port.0 }
{
    (PORTS * usize::from(channel.0) + usize::from(port.0)).saturating_sub(1)
}

// The port by which the second channel leaves the switch that the first enters; none if it does not.
// The two channels side by side, here and where they are handed on: a lane map is asked so, and not every two channels are a turn, which this function says.
pub fn turn_port(rack: &Rack, arriving: Channel, leaving: Channel) -> Option<Port>
    ensures { MatchOption result (turns rack.now arriving.0 leaving.0 ≡ false) (λ p. (turns rack.now arriving.0 leaving.0 ≡ true) × (p.0 ≡ tail_port rack.now leaving.0) × (1 ≤ p.0) × (p.0 ≤ 36)) }
{
    let switch = rack.switch_entered(arriving)?;
    let tail = rack.ends(leaving)?.tail;
    (tail.node == switch).then_some(tail.port)
}

// The place where the row of a turn begins.
pub fn row_place(channel: Channel, port: Port) -> usize
    ensures { result ≡ row_start channel.0 port.0 }
{
    LEVELS * turn(channel, port)
}

// The sixteen lanes of one turn, by level, as they stand in the table.
// No `Model`: clauses name its one field.
#[derive(Clone, Copy)]
pub struct Row {
    lanes: [u8; LEVELS],
    ghost sixteen: { length lanes ≡ 16 },
}

impl Row {
    // The row at the beginning of a part of the lane table; none if the part is too short.
    pub fn take(part: &[u8]) -> Option<Row>
        ensures { MatchOption result (length part.now < 16) (λ w. (16 ≤ length part.now) × (w.lanes ≡ take 16 part.now)) }
    {
        let lanes = *part.first_chunk()?;
        Some(Row { lanes })
    }

    // Puts the row back at the beginning of a part of the lane table; none, and nothing changed, if the part is too short.
    pub fn put(self, part: &mut [u8]) -> Option<()>
        ensures { MatchOption result ((length part.old < 16) × (part.new ≡ part.old)) (λ _. (16 ≤ length part.old) × (part.new ≡ self.lanes ++ drop 16 part.old)) }
    {
        *part.first_chunk_mut()? = self.lanes;
        Some(())
    }

    // The lane at a level: a number above 7 counts as 7.
    pub fn lane(self, level: Level) -> Lane
        ensures { result.number ≡ min (slice_index self.lanes level.number) 7 }
    {
        Lane::capped(self.lanes[usize::from(level.number())])
    }

    // The row with another lane at a level.
    pub fn with(self, level: Level, lane: Lane) -> Row
        ensures { result.lanes ≡ slice_set self.lanes level.number lane.number }
    {
        let mut lanes = self.lanes;
        lanes[usize::from(level.number())] = lane.number();
        Row { lanes }
    }
}

// The row of a turn; none if the table does not hold all of it.
pub fn row_of(lanes: &[u8], channel: Channel, port: Port) -> Option<Row>
    ensures { MatchOption result (length lanes.now < row_start channel.0 port.0 + 16) (λ w. (row_start channel.0 port.0 + 16 ≤ length lanes.now) × (w.lanes ≡ take 16 (drop (row_start channel.0 port.0) lanes.now))) }
{
    Row::take(lanes.get(row_place(channel, port)..)?)
}

// The lane map that reads a lane table.
#[derive(Clone, Copy)]
pub struct StoredRows<'a> {
    pub rack: &'a Rack,
    pub lanes: &'a [u8],
}

impl StoredRows<'_> {
    // The row of a turn; none for what is no turn, or lies beyond the table.
    fn row(&self, arriving: Channel, leaving: Channel) -> Option<Row>
        ensures { MatchOption result ((s : ℕ) → stored_lane self.now.rack.now self.now.lanes.now arriving.0 leaving.0 s ≡ 0) (λ w. (s : ℕ) → s < 16 → min (slice_index w.lanes s) 7 ≡ stored_lane self.now.rack.now self.now.lanes.now arriving.0 leaving.0 s) }
    {
        row_of(
            self.lanes,
            arriving,
            turn_port(self.rack, arriving, leaving)?,
        )
    }
}

impl LaneMap for StoredRows<'_> {
    ghost lanes = { λ m c d s. stored_lane m.rack.now m.lanes.now c d s };

    // The lane in the row of the turn; 0 for what is no turn, or lies beyond the table.
    fn lane(&self, arriving: Channel, leaving: Channel, level: Level) -> Lane {
        self.row(arriving, leaving)
            .map_or(Lane::zero(), |row| row.lane(level))
    }
}

// Two turns never share a byte of the lane table.
pub fn rows_apart()
    ensures { RowsApart }
{}

// Every turn's row lies inside a lane table of the full length.
pub fn rows_inside()
    ensures { RowsInside }
{}
