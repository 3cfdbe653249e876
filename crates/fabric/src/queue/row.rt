// One queue of a row of queues; the others stay as they are.
ghost use Rattle.std.specs.Prelude.{◌≡◌, ◌<◌, length, drop, slice_set};
ghost use Rattle.courses.specs.Queues.{at, push};

use crate::packet::{Packet, VirtualChannel};
use crate::queue::Queue;

// The queues are lent, so that there is one stands as a clause of each of these three.

// How many packets wait in the queue of a virtual channel.
pub(crate) fn count_at(queues: &[Queue], of: VirtualChannel) -> usize
    requires { of.0 < length queues.now }
    ensures { result ≡ length (at queues.now of.0) }
{
    queues[of.place()].count()
}

// Puts a packet last in the queue of a virtual channel.
pub(crate) fn push_at(queues: &mut [Queue], of: VirtualChannel, packet: Packet)
    requires there { of.0 < length queues.old }
    requires room { length (at queues.old of.0) < 8 }
    ensures { queues.new ≡ push queues.old of.0 packet }
{
    queues[of.place()].push(packet);
}

// Lets the first packet of the queue of a virtual channel go.
pub(crate) fn pop_at(queues: &mut [Queue], of: VirtualChannel)
    requires there { of.0 < length queues.old }
    requires some { 0 < length (at queues.old of.0) }
    ensures { queues.new ≡ slice_set queues.old of.0 (drop 1 (at queues.old of.0)) }
{
    queues[of.place()].pop();
}
