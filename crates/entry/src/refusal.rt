// The refusals of a script that are met whatever is lent for its records: 17, 27, 18 and 29 of every script, 1 to 16 and 28 of one that is read.
ghost use Rattle.std.specs.Prelude.{◌≡◌};
ghost use Rattle.entry.specs.paper.Refusals.{refusalNumber};
ghost use Rattle.entry.specs.code.Refusal.{pieceRefused};

/// Why a script is refused.
#[derive(Clone, Copy, Debug, PartialEq, Eq)]
pub enum Refusal {
    /// It has more than 16,777,216 bytes.
    TooLong,
    /// It is not UTF-8.
    NotUtf8,
    /// It has more bytes than the limit in force, which is below 16,777,216.
    OverLimit,
    /// It has more tokens than the limit in force.
    TooManyTokens,
    /// A direction mark stands in it.
    DirectionMark,
    /// A piece of it is refused: 1 to 16.
    Piece(token::refusal::Refusal),
}

impl Refusal {
    /// The number by which hosts know it.
    pub fn number(self) -> u32
        ensures { result ≡ refusalNumber self }
    {
        match self {
            Refusal::TooLong => 17,
            Refusal::NotUtf8 => 18,
            Refusal::OverLimit => 27,
            Refusal::TooManyTokens => 28,
            Refusal::DirectionMark => 29,
            Refusal::Piece(refusal) => refusal.number(),
        }
    }

    /// This refusal, met at a place.
    pub fn at(self, place: usize) -> Refused
        ensures { result ≡ record { what = self; place = place } }
    {
        Refused { what: self, place }
    }
}

// Of each crate its own: one over any refusal would take the refusal's type as a parameter, for two fields and `at`.

/// A refusal, and the place where it is met, in bytes of the script.
#[derive(Clone, Copy, Debug, PartialEq, Eq)]
pub struct Refused {
    pub what: Refusal,
    pub place: usize,
}

impl From<token::refusal::Refused> for Refused {
    ghost from_gives = { λ piece refused. refused ≡ pieceRefused piece };

    fn from(piece: token::refusal::Refused) -> Refused {
        Refusal::Piece(piece.what).at(piece.place)
    }
}
