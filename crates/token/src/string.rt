// Strings and escapes. RULES, "String", "Escape" and "String content".
ghost use Rattle.std.specs.Prelude.{◌≡◌, ◌≢◌, true, IsTrue, IsFalse, IfOk, IfErr, Err, false, ◌+◌, ◌≤◌, ◌<◌, length, drop, slice_index};
ghost use Rattle.chars.specs.paper.Text.{from, headIs};
ghost use Rattle.chars.specs.computed.Runs.{afterRun};
ghost use Rattle.token.specs.paper.Tests.{isAny, quote, threeQuotes};
ghost use Rattle.token.specs.computed.Answer.{closed, closeTriple, closeString, prefixedOf, scanString, plainContent};
ghost use Rattle.token.specs.code.Piece.{pieceOf};
ghost use Rattle.token.specs.code.String.{endedOf, escapeOf, hexesOf, isOrdinary, dollarOf, closeSingle, singleItem, tripleItem, lastOff, spanKind, blocksOff, blocksTaken};
ghost use Rattle.chars.specs.promises.Texts.{Suffix};

use crate::byte_class::Class;
use crate::cursor::{Cursor, byte_at, two_at};
use crate::digits::digit_run;
use crate::kinds::TokenKind;
use crate::piece::Piece;
use crate::refusal::{Refusal, Refused};
use chars::runs::{NoneOf, OneOf, block_at, run_end};

/// A string's content: where it starts and ends.
#[derive(Clone, Copy, Debug, PartialEq, Eq)]
pub struct Span {
    pub start: usize,
    pub end: usize,
}

/// Past an escape, from behind its backslash.
#[tactic(auto, using(crate::proofs::string::Escapes::escapes), unfolding(crate::specs::paper::Tests::isDigit))]
#[inline(always)]
pub fn consume_escape(s: &[u8], c: Cursor) -> Result<Cursor, Refused>
    requires { c.at ≤ length s.now }
    ensures { result ≡ escapeOf (length s.now) (from s.now c.at) }
{
    if s.len() <= c.at {
        return Err(Refusal::OpenEscape.at(c.at));
    }
    let code = s[c.at];
    let next = Cursor { at: c.at + 1 };
    // One `Ok` for all: with one in each arm some escapes take four instructions more.
    let end = match code {
        b'b' | b't' | b'n' | b'f' | b'r' | b'\'' | b'"' | b']' => next,
        b'0'..=b'9' => Cursor {
            at: digit_run::<10>(s, next.at, 2).end,
        },
        b'u' => consume_hexes(s, next)?,
        _ => return Err(Refusal::NoEscape.at(c.at)),
    };
    Ok(end)
}

// Past the four hex digits of a `\u` escape.
#[tactic(auto, using(crate::proofs::string::Escapes::four_hexes))]
#[inline(always)]
fn consume_hexes(s: &[u8], c: Cursor) -> Result<Cursor, Refused>
    requires { c.at ≤ length s.now }
    ensures { result ≡ hexesOf (length s.now) (from s.now c.at) }
{
    let end = digit_run::<16>(s, c.at, 4).end;
    if end - c.at < 4 {
        return Err(Refusal::NoHexDigit.at(end));
    }
    Ok(Cursor { at: end })
}

/// Past the ordinary characters that stand there. A byte of 0x80 or more is never one of the four others, so no character is decoded.
#[tactic(auto, using(crate::proofs::string::Laws::skip_run))]
#[inline(always)]
pub fn skip_ordinary(s: &[u8], c: Cursor) -> Cursor
    requires { c.at ≤ length s.now }
    ensures within { result.at ≤ length s.now }
    ensures onward { c.at ≤ result.at }
    ensures rest { from s.now result.at ≡ afterRun (headIs isOrdinary) (from s.now c.at) }
{
    if !Class::at(s, c.at).is_ordinary() {
        return c;
    }
    // The next item is often near.
    if !Class::at(s, c.at + 1).is_ordinary() {
        return Cursor { at: c.at + 1 };
    }
    Cursor {
        at: run_end::<NoneOf<b'\n', b'"', b'$', b'\\'>>(s, c.at),
    }
}

// Past a `$` in a prefixed string, unless `{` follows.
#[tactic(auto, using(crate::proofs::string::Laws::dollars))]
#[inline(always)]
fn consume_interp_dollar(s: &[u8], c: Cursor) -> Result<Cursor, Refused>
    requires within { c.at < length s.now }
    requires dollar { IsTrue (isAny "$" (from s.now c.at)) }
    ensures { result ≡ dollarOf (length s.now) (from s.now c.at) }
{
    let next = c.at + 1;
    if byte_at(s, next) == b'{' {
        return Err(Refusal::DollarBrace.at(c.at));
    }
    Ok(Cursor { at: next })
}

// Where `prefixed` is given below, it is an argument and no const parameter: these functions are compiled into their callers, where it is known.

// Past the backslash that stands there, in a plain string with the escape that it opens.
#[tactic(auto, unfolding(crate::specs::code::String::singleItem))]
#[inline(always)]
fn consume_backslash(s: &[u8], c: Cursor, prefixed: bool) -> Result<Cursor, Refused>
    requires within { c.at < length s.now }
    requires backslash { slice_index s.now c.at ≡ 0x5C }
    ensures { result ≡ singleItem prefixed s.now c.at }
{
    let next = Cursor { at: c.at + 1 };
    if prefixed {
        return Ok(next);
    }
    consume_escape(s, next)
}

// One step in a single string, where no quote closes it and no backslash stands.
#[tactic(auto, using(crate::proofs::string::Laws::dollar_in), unfolding(crate::specs::code::String::singleItem))]
#[inline(always)]
fn single_item(s: &[u8], c: Cursor, prefixed: bool) -> Result<Cursor, Refused>
    requires within { c.at < length s.now }
    requires no_backslash { slice_index s.now c.at ≢ 0x5C }
    requires no_quote { slice_index s.now c.at ≢ 0x22 }
    ensures value { result ≡ singleItem prefixed s.now c.at }
    ensures passes { IfOk result (λ d. closeSingle prefixed (from s.now d.at) ≡ closeSingle prefixed (from s.now c.at)) }
    ensures refuses { IfErr result (λ e. Err e ≡ endedOf (length s.now) (closeSingle prefixed (from s.now c.at))) }
{
    match s[c.at] {
        b'\n' => Err(Refusal::LineFeed.at(c.at)),
        b'$' if prefixed => consume_interp_dollar(s, c),
        _ => Ok(Cursor { at: c.at + 1 }),
    }
}

// A single string whose content goes on there, up to the next quote outside an escape.
#[tactic(auto, using(crate::proofs::string::Laws::single_walk))]
#[inline(always)]
fn lex_items(s: &[u8], c: Cursor, prefixed: bool) -> Result<Cursor, Refused>
    requires { c.at ≤ length s.now }
    ensures { result ≡ endedOf (length s.now) (closeSingle prefixed (from s.now c.at)) }
{
    let mut d = c;
    // A step is a byte or an escape.
    while d.at < s.len() {
        let b = s[d.at];
        if Class::of(b).is_ordinary() {
            d = skip_ordinary(s, Cursor { at: d.at + 1 });
        } else if b == b'\\' {
            d = consume_backslash(s, d, prefixed)?;
        } else if b == b'"' {
            return Ok(Cursor { at: d.at + 1 });
        } else {
            d = single_item(s, d, prefixed)?;
        }
    }
    Err(Refusal::OpenString.at(d.at))
}

// A single string from its quote on. In most all is ordinary.
#[inline(always)]
fn lex_single_string(s: &[u8], c: Cursor, prefixed: bool) -> Result<Cursor, Refused>
    requires within { c.at ≤ length s.now }
    requires opens { IsTrue (quote (from s.now c.at)) }
    ensures { result ≡ endedOf (length s.now) (closeSingle prefixed (drop 1 (from s.now c.at))) }
{
    let run = skip_ordinary(s, Cursor { at: c.at + 1 });
    if byte_at(s, run.at) == b'"' {
        return Ok(Cursor { at: run.at + 1 });
    }
    lex_items(s, run, prefixed)
}

/// Do three quotes stand at a place?
#[tactic(auto, using(crate::proofs::string::Laws::three_here))]
pub fn three_quotes(s: &[u8], at: usize) -> bool
    requires { at ≤ length s.now }
    ensures { result ≡ threeQuotes (from s.now at) }
{
    byte_at(s, at + 1) == b'"' && byte_at(s, at) == b'"' && byte_at(s, at + 2) == b'"'
}

/// Past all quotes that stand there.
pub fn consume_quotes(s: &[u8], c: Cursor) -> Cursor
    requires { c.at ≤ length s.now }
    ensures within { result.at ≤ length s.now }
    ensures rest { from s.now result.at ≡ afterRun quote (from s.now c.at) }
{
    Cursor {
        at: run_end::<OneOf<b'"', b'"'>>(s, c.at),
    }
}

// Past the three quotes that stand there, and those behind them. Behind most no fourth stands.
#[tactic(auto, using(crate::proofs::string::Laws::triple_walk, crate::proofs::string::Contents::three_closed))]
#[inline(always)]
fn close_triple(s: &[u8], c: Cursor) -> Cursor
    requires within { c.at ≤ length s.now }
    requires closes { IsTrue (threeQuotes (from s.now c.at)) }
    ensures within { result.at ≤ length s.now }
    ensures rest { from s.now result.at ≡ afterRun quote (from s.now c.at) }
{
    let next = Cursor { at: c.at + 3 };
    if byte_at(s, next.at) != b'"' {
        return next;
    }
    consume_quotes(s, next)
}

// One step in a triple string, where no three quotes close it.
#[tactic(auto, using(crate::proofs::string::Laws::dollar_in), unfolding(crate::specs::code::String::tripleItem))]
#[inline(always)]
fn triple_item(s: &[u8], c: Cursor, prefixed: bool) -> Result<Cursor, Refused>
    requires within { c.at < length s.now }
    requires no_close { IsFalse (threeQuotes (from s.now c.at)) }
    ensures value { result ≡ tripleItem prefixed s.now c.at }
    ensures passes { IfOk result (λ d. closeTriple prefixed (from s.now d.at) ≡ closeTriple prefixed (from s.now c.at)) }
    ensures refuses { IfErr result (λ e. Err e ≡ endedOf (length s.now) (closeTriple prefixed (from s.now c.at))) }
{
    let next = Cursor { at: c.at + 1 };
    match s[c.at] {
        b'$' if prefixed => consume_interp_dollar(s, c),
        b'\\' => Err(Refusal::BackslashInTriple.at(c.at)),
        _ => Ok(next),
    }
}

// A triple string from its three quotes on, with all quotes directly after the first three that close it.
#[tactic(auto, using(crate::proofs::string::Laws::triple_walk))]
#[inline(always)]
fn lex_triple_string(s: &[u8], c: Cursor, prefixed: bool) -> Result<Cursor, Refused>
    requires within { c.at ≤ length s.now }
    requires opens { IsTrue (threeQuotes (from s.now c.at)) }
    ensures { result ≡ endedOf (length s.now) (closeTriple prefixed (drop 3 (from s.now c.at))) }
{
    let mut d = skip_ordinary(s, Cursor { at: c.at + 3 });
    // A step is what is not ordinary, and the run behind it.
    while d.at < s.len() {
        if three_quotes(s, d.at) {
            return Ok(close_triple(s, d));
        }
        let next = triple_item(s, d, prefixed)?;
        d = skip_ordinary(s, next);
    }
    Err(Refusal::OpenTriple.at(d.at))
}

// The end of the text from `start` to `end` without a last quote, if one is left.
#[tactic(auto, unfolding(crate::specs::code::String::lastOff))]
fn last_off(s: &[u8], start: usize, end: usize) -> usize
    requires { end ≤ length s.now }
    ensures { result ≡ lastOff s.now start end }
{
    if end <= start {
        return end;
    }
    if s[end - 1] == b'"' {
        return end - 1;
    }
    end
}

// Are the first sixteen bytes and the last sixteen of the text from `start` to `end` quotes, thirty-two in all?
#[tactic(auto, unfolding(crate::specs::code::String::blocksOff))]
fn blocks_off(s: &[u8], start: usize, end: usize) -> bool
    requires order { start ≤ end }
    requires within { end ≤ length s.now }
    ensures { result ≡ blocksOff s.now start end }
{
    32 <= end - start
        && block_at::<OneOf<b'"', b'"'>>(s, start)
        && block_at::<OneOf<b'"', b'"'>>(s, end - 16)
}

// The quotes at both ends of a string taken off by sixteens: what is left has the same content.
#[tactic(auto, using(crate::proofs::string::Strips::blocks_apart))]
fn strip_blocks(s: &[u8], start: usize, end: usize) -> Span
    requires order { start ≤ end }
    requires within { end ≤ length s.now }
    ensures { result ≡ blocksTaken s.now start end }
{
    let mut a = start;
    let mut b = end;
    // Both ends move.
    while blocks_off(s, a, b) {
        a += 16;
        b -= 16;
    }
    Span { start: a, end: b }
}

// The content of the text from `start` to `end`.
#[tactic(auto, using(crate::proofs::string::Strips::strip_turns))]
fn strip_quotes(s: &[u8], start: usize, end: usize) -> Span
    requires order { start ≤ end }
    requires within { end ≤ length s.now }
    requires suffix { Suffix (from s.now end) (from s.now start) }
    ensures { spanKind result ≡ plainContent (length s.now) (from s.now start) (from s.now end) }
{
    let left = strip_blocks(s, start, end);
    let mut a = left.start;
    let mut b = left.end;
    // Both ends move, the second only where a quote is left.
    while a < b {
        if s[a] != b'"' {
            return Span { start: a, end: b };
        }
        a += 1;
        b = last_off(s, a, b);
    }
    Span { start: a, end: b }
}

// The content of the plain triple that stands from `start` to `end`. Behind most of its first three quotes no fourth stands.
#[inline(always)]
fn strip_triple(s: &[u8], start: usize, end: usize) -> Span
    requires order { start ≤ end }
    requires within { end ≤ length s.now }
    requires opens { IsTrue (threeQuotes (from s.now start)) }
    requires closes { closeString false (from s.now start) ≡ closed (from s.now end) }
    ensures { spanKind result ≡ plainContent (length s.now) (from s.now start) (from s.now end) }
{
    if byte_at(s, start + 3) == b'"' {
        return strip_quotes(s, start, end);
    }
    Span {
        start: start + 3,
        end: end - 3,
    }
}

// A plain triple.
#[inline(always)]
fn lex_plain_triple(s: &[u8], c: Cursor) -> Piece
    requires within { c.at ≤ length s.now }
    requires opens { IsTrue (threeQuotes (from s.now c.at)) }
    ensures { result ≡ pieceOf (length s.now) (scanString (length s.now) (from s.now c.at)) }
{
    let end = lex_triple_string(s, c, false)?;
    let content = strip_triple(s, c.at, end.at);
    Ok((
        TokenKind::Str {
            from: content.start,
            to: content.end,
        },
        end,
    ))
}

/// A plain string.
#[inline(always)]
pub fn lex_plain_string(s: &[u8], c: Cursor) -> Piece
    requires within { c.at ≤ length s.now }
    requires opens { IsTrue (quote (from s.now c.at)) }
    ensures { result ≡ pieceOf (length s.now) (scanString (length s.now) (from s.now c.at)) }
{
    if two_at(s, c.at + 1, b'"', b'"') {
        return lex_plain_triple(s, c);
    }
    let end = lex_single_string(s, c, false)?;
    Ok((
        TokenKind::Str {
            from: c.at + 1,
            to: end.at - 1,
        },
        end,
    ))
}

// A prefixed string from its opening on.
#[tactic(auto, unfolding(crate::specs::computed::Answer::closeString, crate::specs::code::String::closeSingle))]
#[inline(always)]
fn lex_string(s: &[u8], c: Cursor) -> Result<Cursor, Refused>
    requires within { c.at ≤ length s.now }
    requires opens { IsTrue (quote (from s.now c.at)) }
    ensures { result ≡ endedOf (length s.now) (closeString true (from s.now c.at)) }
{
    if three_quotes(s, c.at) {
        return lex_triple_string(s, c, true);
    }
    lex_single_string(s, c, true)
}

/// A string whose prefix stands from `start` to c.
#[tactic(auto, using(crate::proofs::string::Laws::prefixed_string))]
#[inline(always)]
pub fn lex_prefixed_string(s: &[u8], start: usize, c: Cursor) -> Piece
    requires order { start ≤ c.at }
    requires within { c.at ≤ length s.now }
    requires opens { IsTrue (quote (from s.now c.at)) }
    ensures { result ≡ pieceOf (length s.now) (prefixedOf (length s.now) (from s.now start) (closeString true (from s.now c.at))) }
{
    let end = lex_string(s, c)?;
    Ok((
        TokenKind::Str {
            from: start,
            to: end.at,
        },
        end,
    ))
}
