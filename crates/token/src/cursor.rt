// A place in a script, and what stands there.
ghost use Rattle.std.specs.Prelude.{◌≡◌, ◌+◌, ◌≤◌, ◌&&◌, ◌==◌, length, drop, slice_index};
ghost use Rattle.chars.specs.paper.Quoted.{oneOf};
ghost use Rattle.chars.specs.paper.Text.{from};
ghost use Rattle.chars.specs.computed.Runs.{afterRun};
ghost use Rattle.token.specs.paper.Tests.{isAny};
ghost use Rattle.token.specs.code.Cursor.{peekAt};

use chars::runs::{OneOf, run_end};
use chars::text::char_at;
use chars::utf8::Decoded;

/// A byte offset in a script, which goes in by value and comes back advanced. One word, for a register: it does not bring the script along, so each
/// reader asks that it lies within.
#[derive(Clone, Copy, Debug, PartialEq, Eq)]
pub struct Cursor {
    pub at: usize,
}

/// The byte at a place; past the end 0, which belongs to no class that is tested on bytes. That of `words` is for stored numbers alone, and told by
/// its word for a byte.
pub fn byte_at(s: &[u8], at: usize) -> u8
    ensures { result ≡ slice_index s.now at }
{
    if at < s.len() {
        return s[at];
    }
    0
}

/// Do these two bytes stand at a place?
pub fn two_at(s: &[u8], at: usize, a: u8, b: u8) -> bool
    requires { at ≤ length s.now }
    ensures { result ≡ slice_index s.now at == a && slice_index s.now (at + 1) == b }
{
    byte_at(s, at) == a && byte_at(s, at + 1) == b
}

impl Cursor {
    /// The start of a script.
    pub fn new() -> Self
        ensures { result.at ≡ 0 }
    {
        Self { at: 0 }
    }

    /// The character at the cursor with the cursor after it; nothing at the end of script.
    #[tactic(auto, using(crate::proofs::cursor::Laws::step_within))]
    #[inline(always)]
    pub fn peek(self, s: &[u8]) -> Option<(Decoded, Cursor)>
        ensures { result ≡ peekAt s.now self.at }
    {
        let here = char_at(s, self.at)?;
        let next = Cursor {
            at: self.at + here.width,
        };
        Some((here, next))
    }

    /// Past one character, if one stands there.
    #[tactic(auto, using(crate::proofs::cursor::Laws::step_within, crate::proofs::cursor::Laws::step_past))]
    pub fn step(self, s: &[u8]) -> Cursor
        requires { self.at ≤ length s.now }
        ensures within { result.at ≤ length s.now }
        ensures past { from s.now result.at ≡ drop 1 (from s.now self.at) }
    {
        match char_at(s, self.at) {
            Some(here) => Cursor {
                at: self.at + here.width,
            },
            None => self,
        }
    }

    /// Past the spaces and tabs that stand there. Most stand alone: two bytes are looked at before any loop.
    #[tactic(auto, using(crate::proofs::cursor::Blanks::blanks))]
    pub fn skip_blanks(self, s: &[u8]) -> Cursor
        requires { self.at ≤ length s.now }
        ensures within { result.at ≤ length s.now }
        ensures onward { self.at ≤ result.at }
        ensures rest { from s.now result.at ≡ afterRun (isAny " \t") (from s.now self.at) }
    {
        let at = self.at;
        if !is_blank(byte_at(s, at)) {
            return self;
        }
        if !is_blank(byte_at(s, at + 1)) {
            return Cursor { at: at + 1 };
        }
        skip_more(s, at + 2)
    }
}

/// The same from a place on.
pub fn skip_more(s: &[u8], at: usize) -> Cursor
    requires { at ≤ length s.now }
    ensures within { result.at ≤ length s.now }
    ensures onward { at ≤ result.at }
    ensures rest { from s.now result.at ≡ afterRun (isAny " \t") (from s.now at) }
{
    Cursor {
        at: run_end::<OneOf<b' ', b'\t'>>(s, at),
    }
}

fn is_blank(b: u8) -> bool
    ensures { result ≡ oneOf " \t" b }
{
    matches!(b, b' ' | b'\t')
}
