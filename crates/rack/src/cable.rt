// Cables, by the ports that they join.
ghost use Rattle.std.specs.Prelude.{◌≡◌, ◌%◌, ◌==◌, cond};

use crate::numbers::{Channel, Node, Port};

// A port of a node, where a cable may end.
#[derive(Clone, Copy, PartialEq, Eq, Debug)]
pub struct End {
    pub node: Node,
    pub port: Port,
}

// An entry of the cable table.
#[derive(Clone, Copy, PartialEq, Eq, Debug)]
pub struct Cable {
    pub first: End,
    pub second: End,
}

// Both ends of a channel: it leaves its tail and enters its head.
#[derive(Clone, Copy)]
pub struct Ends {
    pub tail: End,
    pub head: End,
}

impl Cable {
    // The ends of a channel of the cable: one of even number leaves the first end, one of odd number the second.
    pub fn ends(self, channel: Channel) -> Ends
        ensures tail { result.tail ≡ cond (channel.0 % 2 == 0) self.first self.second }
        ensures head { result.head ≡ cond (channel.0 % 2 == 0) self.second self.first }
    {
        if channel.0 % 2 == 0 {
            Ends {
                tail: self.first,
                head: self.second,
            }
        } else {
            Ends {
                tail: self.second,
                head: self.first,
            }
        }
    }

    // The cable from port `p` of node `v` to port `q` of node `w`.
    pub fn between(v: u16, p: u8, w: u16, q: u8) -> Cable
        ensures { result ≡ record { first = record { node = record { 0 = v }; port = record { 0 = p } }; second = record { node = record { 0 = w }; port = record { 0 = q } } } }
    {
        Cable {
            first: End {
                node: Node(v),
                port: Port(p),
            },
            second: End {
                node: Node(w),
                port: Port(q),
            },
        }
    }

    // What an unused place of the cable table holds. Named, and no `Default`: it is a mark of that table, and no cable of a rack.
    pub fn none() -> Cable
        ensures { result ≡ record { first = record { node = record { 0 = 0 }; port = record { 0 = 0 } }; second = record { node = record { 0 = 0 }; port = record { 0 = 0 } } } }
    {
        let nowhere = End {
            node: Node(0),
            port: Port(0),
        };
        Cable {
            first: nowhere,
            second: nowhere,
        }
    }
}
