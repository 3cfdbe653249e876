// The packets of a queue, altered one entry at a time.
ghost use Rattle.std.specs.Prelude.{◌≡◌, ◌<◌, ◌≤◌, [], ◌∷◌, ◌++◌, length, drop, slice_get};

use crate::packet::Packet;
use crate::queue::Queue;

impl Queue {
    // A queue in which nothing waits.
    pub fn empty() -> Queue
        ensures { result ≡ [] }
    {
        Queue {
            packets: [Packet::none(); 8],
            len: 0,
        }
    }

    // How many packets wait.
    pub fn count(&self) -> usize
        ensures is { result ≡ length self.now }
        ensures few { result ≤ 8 }
    {
        self.len
    }

    // The packet that leaves first; none if nothing waits.
    pub fn first(&self) -> Option<Packet>
        ensures { result ≡ slice_get self.now 0 }
    {
        self.packets[..self.len].first().copied()
    }

    // Puts a packet last.
    pub(crate) fn push(&mut self, packet: Packet)
        requires { length self.old < 8 }
        ensures { self.new ≡ self.old ++ (packet ∷ []) }
    {
        self.packets[self.len] = packet;
        self.len += 1;
    }

    // Lets the first packet go, and moves each other one place to the front.
    pub(crate) fn pop(&mut self)
        requires { 0 < length self.old }
        ensures { self.new ≡ drop 1 self.old }
    {
        self.packets[0] = Packet::none();
        self.packets.rotate_left(1);
        self.len -= 1;
    }
}
