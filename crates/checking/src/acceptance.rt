// The proof that a plan was checked and accepted.
ghost use Rattle.std.specs.Prelude.{◌≡◌};

// Made by the check alone; it can be given on, and not copied. No `Model`: clauses name its one field.
#[derive(Drop, Debug)]
pub struct Acceptance {
    greatest: u16,
}

impl Acceptance {
    pub(crate) fn new(greatest: u16) -> Acceptance
        ensures { result.greatest ≡ greatest }
    {
        Acceptance { greatest }
    }

    // The greatest rank of a virtual channel.
    pub fn greatest_rank(&self) -> u16
        ensures { result ≡ self.now.greatest }
    {
        self.greatest
    }
}
