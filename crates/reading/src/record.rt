// One record of a rack file: eight bytes, and what they say.
ghost use Rattle.std.specs.Prelude.{◌≡◌};
ghost use Rattle.reading.specs.Format.{decoded};

use rack::cable::{Cable, End};
pub use rack::kind::Kind;
use rack::numbers::{Node, Port};

// At the switch, what is for the host leaves by the port.
#[derive(Clone, Copy, PartialEq, Debug)]
pub struct Entry {
    pub switch: Node,
    pub host: Node,
    pub port: Port,
}

#[derive(Clone, Copy, PartialEq, Debug)]
pub enum Record {
    Node(Kind, Node),
    Joins(Cable),
    Forwards(Entry),
}

fn word(high: u8, low: u8) -> u16
    ensures { result ≡ Rattle.reading.specs.Format.word high low }
{
    u16::from_be_bytes([high, low])
}

fn end(high: u8, low: u8, port: u8) -> End
    ensures { result ≡ Rattle.reading.specs.Format.end_at high low port }
{
    End {
        node: Node(word(high, low)),
        port: Port(port),
    }
}

// The record that eight bytes spell, if they do.
pub fn decode(bytes: &[u8]) -> Option<Record>
    ensures { result ≡ decoded bytes.now }
{
    match bytes {
        [b'H', a, b, 0, 0, 0, 0, 0] => Some(Record::Node(Kind::Host, Node(word(*a, *b)))),
        [b'S', a, b, 0, 0, 0, 0, 0] => Some(Record::Node(Kind::Switch, Node(word(*a, *b)))),
        [b'C', a, b, p, c, d, q, 0] => Some(Record::Joins(Cable {
            first: end(*a, *b, *p),
            second: end(*c, *d, *q),
        })),
        [b'F', a, b, c, d, p, 0, 0] => Some(Record::Forwards(Entry {
            switch: Node(word(*a, *b)),
            host: Node(word(*c, *d)),
            port: Port(*p),
        })),
        _ => None,
    }
}
