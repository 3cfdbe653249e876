// Why a file is refused.
ghost use Rattle.std.specs.Prelude.{◌≡◌, Some};
ghost use Rattle.reading.specs.Faults.{rule_number, file_refusal};

// The rules that a record keeps, in the order in which they are asked.
#[derive(Clone, Copy, PartialEq, Eq, Debug)]
pub enum Rule {
    // an unknown kind, a spare byte that is not zero, or a group out of order
    Form,
    // more nodes or cables than are let in
    Many,
    // a node number that is not its place
    Number,
    // a cable end that is no port, the same node twice, or two hosts
    End,
    // a port that has a cable
    Taken,
    // a forwarding entry for no switch, for no host, by a port without a cable, or for a pair given before
    Forwarding,
}

#[derive(Clone, Copy, PartialEq, Eq, Debug)]
pub enum FileFault {
    // a table is too short
    Tables,
    // the length is no multiple of 8
    Length,
    // a record breaks a rule
    Record { record: usize, rule: Rule },
    // a host has no cable
    Uncabled { host: usize },
}

impl Rule {
    // The number by which a record that breaks the rule is refused. Named, and no `From`: the faults of other layers answer an `Option`.
    pub fn number(self) -> u8
        ensures { result ≡ rule_number self }
    {
        match self {
            Rule::Form => 2,
            Rule::Many => 3,
            Rule::Number => 4,
            Rule::End => 5,
            Rule::Taken => 6,
            Rule::Forwarding => 8,
        }
    }
}

impl FileFault {
    // The number by which the file is refused. Named, as that of a rule is, so that the faults of all layers are asked in the same words.
    pub fn number(self) -> u8
        ensures { (file_refusal self).number ≡ Some result }
    {
        match self {
            FileFault::Tables => 9,
            FileFault::Length => 1,
            FileFault::Record { rule, .. } => rule.number(),
            FileFault::Uncabled { .. } => 7,
        }
    }

    // The record or the host that the refusal is about; 0 where it is about none, as in the line that tells it.
    pub fn record(self) -> usize
        ensures { result ≡ (file_refusal self).about }
    {
        match self {
            FileFault::Tables | FileFault::Length => 0,
            FileFault::Record { record, .. } => record,
            FileFault::Uncabled { host } => host,
        }
    }
}
