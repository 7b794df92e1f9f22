// What the records of a script need. REQUESTS, "Exact need".
ghost use Rattle.std.specs.Prelude.{◌≡◌, ◌+◌, ◌≤◌};
ghost use Rattle.token.specs.paper.Records.{valueNeed};
ghost use Rattle.token.specs.code.Records.{counting, noneCounted};

use crate::kinds::TokenKind;

/// How many tokens there are of each kind whose records have values.
#[derive(Clone, Copy, Debug, PartialEq, Eq)]
pub struct Counts {
    /// IntLit.
    pub int_lits: usize,
    /// LongLit.
    pub long_lits: usize,
    /// Str, plain and prefixed.
    pub strs: usize,
    /// Newline.
    pub newlines: usize,
}

impl Counts {
    /// Those of no token.
    pub fn new() -> Self
        ensures { result ≡ noneCounted }
    {
        Self {
            int_lits: 0,
            long_lits: 0,
            strs: 0,
            newlines: 0,
        }
    }

    /// One token more, of this kind.
    #[tactic(auto, unfolding(crate::specs::code::Records::counting))]
    pub fn add(&mut self, kind: TokenKind)
        requires room { valueNeed self.old + 8 ≤ 18446744073709551615 }
        ensures { self.new ≡ counting self.old kind }
    {
        match kind {
            TokenKind::IntLit(_) => self.int_lits += 1,
            TokenKind::LongLit(_) => self.long_lits += 1,
            TokenKind::Str { .. } => self.strs += 1,
            TokenKind::Newline(_) => self.newlines += 1,
            _ => {}
        }
    }

    /// How many bytes their values take.
    pub fn value_bytes(self) -> usize
        requires room { valueNeed self ≤ 18446744073709551615 }
        ensures { result ≡ valueNeed self }
    {
        4 * self.int_lits + 8 * (self.long_lits + self.strs) + self.newlines
    }
}

/// What the records of a script need, and what was counted for it.
#[derive(Clone, Copy, Debug, PartialEq, Eq)]
pub struct Need {
    /// How many tokens, line ends and Eof included.
    pub tokens: usize,
    /// How many bytes their records have.
    pub bytes: usize,
    /// How many of the tokens have values, by kind.
    pub counts: Counts,
}
