// The refusals of stored records: 22, 23 and 24. REQUESTS, "Refusals of a record".
ghost use Rattle.std.specs.Prelude.{◌≡◌};
ghost use Rattle.rolls.specs.paper.Refusals.{refusalNumber};

/// Why a record is refused.
#[derive(Clone, Copy, Debug, PartialEq, Eq)]
pub enum Refusal {
    /// Bytes are left, but fewer than four or than the record's length.
    TooFew,
    /// There is no kind of that number, or its records have another length.
    NoKind,
    /// Values or places that no record has, bytes behind Eof, or a roll that ends without Eof.
    Wrong,
}

impl Refusal {
    /// The number by which hosts know it.
    pub fn number(self) -> u32
        ensures { result ≡ refusalNumber self }
    {
        match self {
            Refusal::TooFew => 22,
            Refusal::NoKind => 23,
            Refusal::Wrong => 24,
        }
    }

    /// This refusal, met at an offset in the roll.
    pub fn at(self, place: usize) -> Refused
        ensures { result ≡ record { what = self; place = place } }
    {
        Refused { what: self, place }
    }
}

// Of each crate its own: one over any refusal would take the refusal's type as a parameter, for two fields and `at`.

/// A refusal, and the offset in the roll where it is met.
#[derive(Clone, Copy, Debug, PartialEq, Eq)]
pub struct Refused {
    pub what: Refusal,
    pub place: usize,
}
