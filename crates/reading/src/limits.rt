// How many nodes and cables a reading lets in, and how long its tables are.
ghost use Rattle.std.specs.Prelude.{◌≡◌, ◌≤◌, min};

// The most nodes that a reading lets in: the places of the table of nodes.
pub const NODES: usize = 128;

// The most cables: the places of the table of cables.
pub const CABLES: usize = 256;

// The places of the forwarding table: one for each pair of nodes.
pub const FORWARDING: usize = NODES * NODES;

// No `Model`: contracts speak of its two numbers by their names, and a model would be the same two again.
#[derive(Clone, Copy, PartialEq, Eq, Debug)]
pub struct Limits {
    nodes: usize,
    cables: usize,
    ghost few: { (nodes ≤ 128) × (cables ≤ 256) },
}

impl Limits {
    // As many as asked for, and never more than 128 nodes and 256 cables.
    pub fn at_most(nodes: usize, cables: usize) -> Limits
        ensures { (result.nodes ≡ min nodes 128) × (result.cables ≡ min cables 256) }
    {
        Limits {
            nodes: nodes.min(NODES),
            cables: cables.min(CABLES),
        }
    }

    pub fn nodes(self) -> usize
        ensures { (result ≡ self.nodes) × (result ≤ 128) }
    {
        self.nodes
    }

    pub fn cables(self) -> usize
        ensures { (result ≡ self.cables) × (result ≤ 256) }
    {
        self.cables
    }
}
