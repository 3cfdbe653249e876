// Numbers with types of their own, so that none stands in another's place.
ghost use Rattle.std.specs.Prelude.{◌≡◌, ◌<◌, ◌≤◌, min, MatchOption};

use std::fmt;

// A node, by its number in the file.
#[derive(Clone, Copy, PartialEq, Eq, PartialOrd, Ord, Debug)]
pub struct Node(pub u16);

// A port of a node.
#[derive(Clone, Copy, PartialEq, Eq, Debug)]
pub struct Port(pub u8);

// A channel: one direction of a cable.
#[derive(Clone, Copy, PartialEq, Eq, PartialOrd, Ord, Debug)]
pub struct Channel(pub u16);

// A number from 0 to `LAST`.
// No `Model`: clauses name its one field, as they name that of a `Node` or a `Channel`, and its bound is a ghost field.
#[derive(Clone, Copy, PartialEq, Eq)]
pub struct UpTo<const LAST: u8> {
    number: u8,
    ghost within: { number ≤ LAST },
}

// A virtual lane, 0 to 7.
pub type Lane = UpTo<7>;

// A service level, 0 to 15.
pub type Level = UpTo<15>;

impl<const LAST: u8> UpTo<LAST> {
    // The number as one of the type; none if it is above `LAST`.
    // No `TryFrom`: its error would be a type that says no more than none.
    pub fn new(number: u8) -> Option<UpTo<LAST>>
        ensures { MatchOption result (LAST < number) (λ l. l.number ≡ number) }
    {
        // no `then`: its closure does not know the bound
        if number <= LAST {
            Some(UpTo { number })
        } else {
            None
        }
    }

    // Lane 0, on which every path begins, or level 0.
    pub fn zero() -> UpTo<LAST>
        ensures { result.number ≡ 0 }
    {
        UpTo { number: 0 }
    }

    // Its number. No `From` for `u8`: callers would write `usize::from(u8::from(lane))`, and the two clauses would be one.
    pub fn number(self) -> u8
        ensures same { result ≡ self.entry.number }
        ensures within { result ≤ LAST }
    {
        self.number
    }
}

// A lane and a level each under its own name.
impl<const LAST: u8> fmt::Debug for UpTo<LAST> {
    fn fmt<W: fmt::Write>(&self, f: &mut fmt::Formatter<W>) -> fmt::Result {
        let name = match LAST {
            7 => "Lane",
            15 => "Level",
            _ => "UpTo",
        };
        f.debug_struct(name).field("number", &self.number).finish()
    }
}

impl UpTo<7> {
    // Lane 1.
    pub fn one() -> Lane
        ensures { result.number ≡ 1 }
    {
        UpTo { number: 1 }
    }

    // The lane of that number; a number above 7 counts as 7.
    pub fn capped(number: u8) -> Lane
        ensures { result.number ≡ min number 7 }
    {
        UpTo {
            number: number.min(7),
        }
    }
}
