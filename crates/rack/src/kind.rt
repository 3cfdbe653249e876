// What a node is.
ghost use Rattle.std.specs.Prelude.{◌≡◌, ◌≢◌, MatchOption};
ghost use Rattle.rack.specs.Kinds.{code};
ghost use Rattle.rack.specs.Network.{ports};

// A host sends and receives; a switch forwards.
#[derive(Clone, Copy, PartialEq, Eq, Debug)]
pub enum Kind {
    Host,
    Switch,
}

impl Kind {
    // The kind of that number in the node table; none if it is the number of no kind.
    // No `TryFrom`: its error would be a type that says no more than none.
    pub fn of(number: u8) -> Option<Kind>
        ensures { MatchOption result ((number ≢ 1) × (number ≢ 2)) (λ kind. code kind ≡ number) }
    {
        match number {
            1 => Some(Kind::Host),
            2 => Some(Kind::Switch),
            _ => None,
        }
    }

    // How many ports a node of the kind has.
    pub fn ports(self) -> u8
        ensures { result ≡ ports (code self) }
    {
        match self {
            Kind::Switch => 36,
            Kind::Host => 1,
        }
    }
}

// The kind's number in the node table.
impl From<Kind> for u8 {
    ghost from_gives = { λ kind number. number ≡ code kind };

    fn from(kind: Kind) -> u8 {
        match kind {
            Kind::Host => 1,
            Kind::Switch => 2,
        }
    }
}
