// What a script is refused for: 1 to 16, in this order. Each has one meaning, and its number is what a host is told.
ghost use Rattle.std.specs.Prelude.{◌≡◌};
ghost use Rattle.token.specs.code.Refusal.{refusalNumber, Numbered};

/// What a piece is refused for.
#[derive(Clone, Copy, Debug, PartialEq, Eq)]
pub enum Refusal {
    /// A CR without an LF after it, where a piece starts.
    LoneCr,
    /// A block comment is open at the script's end.
    OpenComment,
    /// A character with which nothing starts.
    NoPiece,
    /// A backtick is open at the script's end.
    OpenBacktick,
    /// Two backticks with nothing between them.
    EmptyBacktick,
    /// A number that is too large for its type.
    LargeNumber,
    /// A single string is open at the script's end.
    OpenString,
    /// An LF in a single string.
    LineFeed,
    /// A triple string is open at the script's end.
    OpenTriple,
    /// A backslash in a triple string.
    BackslashInTriple,
    /// `${` in a prefixed string.
    DollarBrace,
    /// The script ends directly after an escape's backslash.
    OpenEscape,
    /// One of the four hex digits after `\u` is missing.
    NoHexDigit,
    /// Another character after a backslash.
    NoEscape,
    /// No `'` after the escape of a character.
    NoTick,
    /// Neither a character nor a symbol after a `'`.
    NoSymbol,
}

impl Refusal {
    /// The number that a host is told, 1 to 16. The second clause: whatever a script's scanner refuses with is such a number.
    #[tactic(auto, using(crate::proofs::theorems::Told::numbered))]
    pub fn number(self) -> u32
        ensures value { result ≡ refusalNumber self }
        ensures numbered { Numbered }
    {
        match self {
            Refusal::LoneCr => 1,
            Refusal::OpenComment => 2,
            Refusal::NoPiece => 3,
            Refusal::OpenBacktick => 4,
            Refusal::EmptyBacktick => 5,
            Refusal::LargeNumber => 6,
            Refusal::OpenString => 7,
            Refusal::LineFeed => 8,
            Refusal::OpenTriple => 9,
            Refusal::BackslashInTriple => 10,
            Refusal::DollarBrace => 11,
            Refusal::OpenEscape => 12,
            Refusal::NoHexDigit => 13,
            Refusal::NoEscape => 14,
            Refusal::NoTick => 15,
            Refusal::NoSymbol => 16,
        }
    }

    /// This refusal, met at a place.
    pub fn at(self, place: usize) -> Refused
        ensures { result ≡ record { what = self; place = place } }
    {
        Refused { what: self, place }
    }
}

/// A refusal with its place, a byte offset in the script.
#[derive(Clone, Copy, Debug, PartialEq, Eq)]
pub struct Refused {
    pub what: Refusal,
    pub place: usize,
}
