// How many bytes and tokens a script may have. REQUESTS, "Limits in force".
ghost use Rattle.std.specs.Prelude.{◌≡◌};
ghost use Rattle.entry.specs.computed.Host.{tooMany};

use crate::check::MOST_BYTES;

/// The most bytes and tokens that a script may have. Tokens are counted with line ends and Eof; `None` is no limit for them.
#[derive(Clone, Copy, Debug, PartialEq, Eq)]
pub struct Limits {
    pub bytes: usize,
    pub tokens: Option<usize>,
}

impl Limits {
    /// The compiler's: 16,777,216 bytes, and any number of tokens.
    pub const COMPILER: Limits = Limits {
        bytes: MOST_BYTES,
        tokens: None,
    };

    /// Those of a contact, a script in an entry of the address book: 4,096 bytes and 512 tokens.
    pub const CONTACT: Limits = Limits {
        bytes: 4096,
        tokens: Some(512),
    };

    /// Whether so many tokens are more than the limit. Where there is none, no number is.
    pub fn has_too_many(&self, tokens: usize) -> bool
        ensures { result ≡ tooMany self.now.tokens tokens }
    {
        self.tokens.is_some_and(|most| most < tokens)
    }
}
