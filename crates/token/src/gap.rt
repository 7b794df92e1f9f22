// Comments. RULES, "Pieces".
ghost use Rattle.std.specs.Prelude.{◌≡◌, IsTrue, not, ◌+◌, ◌*◌, ◌≤◌, length, drop, slice_index};
ghost use Rattle.chars.specs.paper.Text.{from};
ghost use Rattle.chars.specs.computed.Runs.{afterRun};
ghost use Rattle.token.specs.paper.Tests.{endOfLine, endsLine, opensLine, opensBlock};
ghost use Rattle.token.specs.computed.Answer.{close};
ghost use Rattle.token.specs.code.Gap.{closedOf, fourOpen, openings};

use crate::cursor::{Cursor, byte_at, two_at};
use chars::runs::{InRange, NoneOf, run_end};

// Does an LF or a CR LF stand at a place? Most bytes are above both.
#[tactic(auto, using(crate::proofs::gap::Laws::line_ends))]
fn line_ends_at(s: &[u8], at: usize) -> bool
    requires { at ≤ length s.now }
    ensures { result ≡ endsLine (from s.now at) }
{
    let b = byte_at(s, at);
    b <= b'\r' && (b == b'\n' || two_at(s, at, b'\r', b'\n'))
}

// Two bytes as one number, so that both are compared at once: `/*` is 0x2A2F. That of `keyword` is told as stored numbers are, this one by its bytes.
fn pair_at(s: &[u8], at: usize) -> u16
    requires { at + 2 ≤ length s.now }
    ensures { result ≡ slice_index s.now at + 256 * slice_index s.now (at + 1) }
{
    u16::from_le_bytes([s[at], s[at + 1]])
}

/// A place inside nested comments, and how many are open there besides the outermost.
#[derive(Clone, Copy, Debug, PartialEq, Eq)]
pub struct Nest {
    pub at: usize,
    pub depth: usize,
}

// Do four `/*` in a row stand at a place? Most comments do not begin with even one more.
#[tactic(auto, unfolding(crate::specs::code::Gap::fourOpen))]
fn four_open(s: &[u8], at: usize) -> bool
    ensures { result ≡ fourOpen s.now at }
{
    8 <= s.len()
        && at <= s.len() - 8
        && pair_at(s, at) == 0x2A2F
        && pair_at(s, at + 2) == 0x2A2F
        && pair_at(s, at + 4) == 0x2A2F
        && pair_at(s, at + 6) == 0x2A2F
}

// Past the `/*` that stand there, four at a time.
#[tactic(auto, using(crate::proofs::gap::Laws::open_turns))]
fn pass_openings(s: &[u8], at: usize) -> Nest
    requires { at ≤ length s.now }
    ensures value { result ≡ openings s.now at }
    ensures within { result.at ≤ length s.now }
    ensures depth_in { result.depth ≤ result.at }
    ensures same { close result.depth 0 (from s.now result.at) ≡ close 0 0 (from s.now at) }
{
    let mut i = at;
    let mut depth: usize = 0;
    // A turn passes eight bytes and counts four.
    while four_open(s, i) {
        i += 8;
        depth += 4;
    }
    Nest { at: i, depth }
}

// From inside a comment: to its first `*` or `/`, since most comments have no mark inside but their end; or past the `/*` that stand there.
#[inline(always)]
fn first_mark(s: &[u8], at: usize) -> Nest
    requires { at ≤ length s.now }
    ensures within { result.at ≤ length s.now }
    ensures depth_in { result.depth ≤ result.at }
    ensures same { close result.depth 0 (from s.now result.at) ≡ close 0 0 (from s.now at) }
{
    let b = byte_at(s, at);
    if b == b'/' {
        return pass_openings(s, at);
    }
    if b == b'*' {
        return Nest { at, depth: 0 };
    }
    Nest {
        at: run_end::<NoneOf<b'*', b'/', b'*', b'/'>>(s, at),
        depth: 0,
    }
}

// From inside a comment, with so many more open: past the outermost's end.
#[tactic(auto, using(crate::proofs::gap::Laws::block_turns))]
fn close_block(s: &[u8], at: usize, inner: usize) -> Option<Cursor>
    requires some { 1 ≤ length s.now }
    requires within { at ≤ length s.now }
    requires inner_in { inner ≤ at }
    ensures { result ≡ closedOf (length s.now) (close inner 0 (from s.now at)) }
{
    let mut i = at;
    let mut depth = inner;
    let last = s.len() - 1;
    // A step is two bytes, or one.
    while i < last {
        let pair = pair_at(s, i);
        if pair == 0x2A2F {
            i += 2;
            depth += 1;
        } else if pair == 0x2F2A {
            i += 2;
            if depth == 0 {
                return Some(Cursor { at: i });
            }
            depth -= 1;
        } else {
            i += 1;
        }
    }
    None
}

impl Cursor {
    /// Past the line comment that begins there, up to the line end or the end of script. What is above both line-end bytes goes first.
    #[tactic(auto, using(crate::proofs::gap::Laws::line_runs))]
    pub fn consume_line_comment(self, s: &[u8]) -> Cursor
        requires within { self.at ≤ length s.now }
        requires opens { IsTrue (opensLine (from s.now self.at)) }
        ensures within { result.at ≤ length s.now }
        ensures rest { from s.now result.at ≡ afterRun (λ t. not (endOfLine t)) (drop 2 (from s.now self.at)) }
    {
        let mut i = run_end::<InRange<0x0E, 0xFF>>(s, self.at + 2);
        // Byte by byte from the first byte below 0x0E on: in most comments the line end stands there. A CR is one with the byte behind it only, and an
        // iterator gives one byte.
        while i < s.len() && !line_ends_at(s, i) {
            i += 1;
        }
        Cursor { at: i }
    }

    /// Past the block comment that begins there; nothing, where it is open at the end of script. Nested ones are counted, so that any depth takes
    /// one pass and no stack.
    #[inline(never)] // its loop has registers of its own then
    pub fn consume_block_comment(self, s: &[u8]) -> Option<Cursor>
        requires within { self.at ≤ length s.now }
        requires opens { IsTrue (opensBlock (from s.now self.at)) }
        ensures { result ≡ closedOf (length s.now) (close 0 0 (drop 2 (from s.now self.at))) }
    {
        let nest = first_mark(s, self.at + 2);
        close_block(s, nest.at, nest.depth)
    }
}
