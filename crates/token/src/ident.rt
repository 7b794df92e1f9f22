// Identifiers, operators and backticks. RULES, "Identifier", "Operator" and "Backtick".
ghost use Rattle.std.specs.Prelude.{◌≡◌, IsTrue, IsFalse, ◌≤◌, ◌<◌, length, drop};
ghost use Rattle.chars.specs.paper.Text.{from, idStart};
ghost use Rattle.chars.specs.computed.Runs.{afterRun};
ghost use Rattle.token.specs.paper.Kinds.{wordOf};
ghost use Rattle.token.specs.paper.Tests.{isAny, opSign, freeSign, opensComment};
ghost use Rattle.token.specs.computed.Answer.{afterIdent, codesTo, orPrefixed, scanIdent, scanOperator};
ghost use Rattle.token.specs.code.ByteClass.{classAt, inWord};
ghost use Rattle.token.specs.code.Ident.{asciiSign, signIn, runBefore};
ghost use Rattle.token.specs.code.Keyword.{keywordOf};
ghost use Rattle.token.specs.code.Names.{hereOf, lowBefore};
ghost use Rattle.token.specs.code.Piece.{pieceOf};
ghost use Rattle.token.specs.code.String.{backtickOf};
ghost use Rattle.token.specs.code.Walk.{LeftTo};
ghost use Rattle.token.specs.declared.kinds.TokenKind.TheVariants as tk;

use crate::byte_class::Class;
use crate::cursor::{Cursor, byte_at};
use crate::keyword::{run_number, word_number};
use crate::kinds::{Kw, TokenKind, keyword_of};
use crate::names::{Here, ends_low, id_run_end, opens_with, word_on};
use crate::piece::Piece;
use crate::refusal::{Refusal, Refused};
use crate::string::lex_prefixed_string;
use chars::runs::{NoneOf, run_end};
use chars::text::sign_width;

// Does an operator sign of ASCII stand there? FREE: one that opens no comment.
#[inline(always)]
#[tactic(auto, using(crate::proofs::ident::Signs::sign_tests))]
fn is_op_sign<const FREE: bool>(s: &[u8], at: usize) -> bool
    requires { at ≤ length s.now }
    ensures { result ≡ asciiSign FREE s.now at }
{
    let class = Class::at(s, at);
    if FREE && class == Class::SLASH {
        return !opens_with(byte_at(s, at + 1));
    }
    class.is_op()
}

// Past the operator signs that stand there. FREE: a comment's opening ends them.
#[inline(never)] // its loop has registers of its own then
fn consume_signs<const FREE: bool>(s: &[u8], c: Cursor) -> Cursor
    requires { c.at ≤ length s.now }
    ensures within { result.at ≤ length s.now }
    ensures rest { from s.now result.at ≡ afterRun (signIn FREE) (from s.now c.at) }
{
    let mut i = c.at;
    while is_op_sign::<FREE>(s, i) {
        i += 1;
    }
    if Class::at(s, i) == Class::WIDE {
        return consume_wide_signs::<FREE>(s, Cursor { at: i });
    }
    Cursor { at: i }
}

// The same, where a character past ASCII stands.
#[inline(never)] // so that the loop over ASCII is small
fn consume_wide_signs<const FREE: bool>(s: &[u8], c: Cursor) -> Cursor
    requires { c.at ≤ length s.now }
    ensures within { result.at ≤ length s.now }
    ensures rest { from s.now result.at ≡ afterRun (signIn FREE) (from s.now c.at) }
{
    let mut i = c.at;
    // A step is a sign: one of ASCII, or one past it.
    loop {
        if Class::at(s, i) == Class::WIDE {
            let Some(width) = sign_width(s, i) else {
                return Cursor { at: i };
            };
            i += width;
        } else if is_op_sign::<FREE>(s, i) {
            i += 1;
        } else {
            return Cursor { at: i };
        }
    }
}

/// Past an identifier's rest: chunks, each of zero or more underscores and one or more id characters, then signs where underscores are left. `low`: an
/// underscore came last before c.
// The inner loop ends with a chunk, the outer one where none follows.
#[inline(never)]
pub fn consume_id_rest(s: &[u8], c: Cursor, low: bool) -> Cursor
    requires { c.at ≤ length s.now }
    ensures within { result.at ≤ length s.now }
    ensures rest { from s.now result.at ≡ afterIdent low (from s.now c.at) }
{
    let mut i = c.at;
    let mut left = low;
    'chunks: loop {
        loop {
            if byte_at(s, i) == b'_' {
                i += 1;
                left = true;
            } else {
                let end = id_run_end(s, i);
                if end == i {
                    break 'chunks;
                }
                i = end;
                left = false;
                break;
            }
        }
    }
    if left {
        return consume_signs::<false>(s, Cursor { at: i });
    }
    Cursor { at: i }
}

/// Past the operator run that stands there; a comment's opening ends it.
pub fn consume_op_run(s: &[u8], c: Cursor) -> Cursor
    requires { c.at ≤ length s.now }
    ensures within { result.at ≤ length s.now }
    ensures rest { from s.now result.at ≡ afterRun freeSign (from s.now c.at) }
{
    consume_signs::<true>(s, c)
}

/// Does `//` or `/*` stand there?
#[tactic(auto, using(crate::proofs::ident::Laws::comment_bytes))]
pub fn opens_comment(s: &[u8], c: Cursor) -> bool
    requires { c.at ≤ length s.now }
    ensures { result ≡ opensComment (from s.now c.at) }
{
    byte_at(s, c.at) == b'/' && opens_with(byte_at(s, c.at + 1))
}

// An identifier from `start` to c, or the string that it prefixes.
#[inline(always)]
fn or_prefixed(s: &[u8], start: usize, c: Cursor) -> Piece
    requires order { start ≤ c.at }
    requires within { c.at ≤ length s.now }
    ensures { result ≡ pieceOf (length s.now) (orPrefixed (length s.now) tk.Ident (from s.now start) (from s.now c.at)) }
{
    if byte_at(s, c.at) == b'"' {
        return lex_prefixed_string(s, start, c);
    }
    Ok((TokenKind::Ident, c))
}

/// Where the identifier from `start` on ends, whose ASCII id characters and underscores end at `end`. Most end there.
#[inline(always)]
pub fn name_end(s: &[u8], start: usize, end: Here) -> Cursor
    requires some { start < end.at }
    requires within { end.at ≤ length s.now }
    requires here { end ≡ hereOf s.now end.at }
    requires stops { IsFalse (inWord end.class.number) }
    ensures within { result.at ≤ length s.now }
    ensures rest { from s.now result.at ≡ afterIdent (lowBefore s.now start end.at) (from s.now end.at) }
{
    let c = Cursor { at: end.at };
    if end.class == Class::WIDE {
        return consume_id_rest(s, c, ends_low(s, start, end.at));
    }
    if end.class.is_op() && ends_low(s, start, end.at) {
        return consume_signs::<false>(s, c);
    }
    c
}

// The keyword from `at` to `end`, if one stands there. Few words begin as one does.
#[inline(always)]
fn word_of(s: &[u8], class: Class, at: usize, end: usize) -> Option<Kw>
    requires class_is { class.number ≡ classAt s.now at }
    requires left { LeftTo s.now at end }
    ensures { result ≡ keywordOf (wordOf (codesTo (from s.now at) (from s.now end))) }
{
    if class == Class::KEYWORD {
        return keyword_of(word_number(s, at, end));
    }
    None
}

/// An identifier, a keyword, or the string that an identifier prefixes. Its first character, of this class, ends at `next`.
#[inline(always)]
pub fn lex_ident(s: &[u8], c: Cursor, class: Class, next: Cursor) -> Piece
    requires within { c.at < length s.now }
    requires starts { IsTrue (idStart (from s.now c.at)) }
    requires class_is { class.number ≡ classAt s.now c.at }
    requires next_within { next.at ≤ length s.now }
    requires next_same { from s.now next.at ≡ drop 1 (from s.now c.at) }
    ensures { result ≡ pieceOf (length s.now) (scanIdent (length s.now) (from s.now c.at)) }
{
    let end = name_end(s, c.at, word_on(s, next.at));
    let word = word_of(s, class, c.at, end.at);
    match word {
        Some(k) => Ok((TokenKind::Kw(k), end)),
        None => or_prefixed(s, c.at, end),
    }
}

// Where the operator ends whose first sign ends at c. Many have one sign.
#[inline(always)]
fn run_end_from(s: &[u8], c: Cursor) -> Cursor
    requires { c.at ≤ length s.now }
    ensures within { result.at ≤ length s.now }
    ensures rest { from s.now result.at ≡ afterRun freeSign (from s.now c.at) }
{
    if Class::at(s, c.at).in_operator() {
        return consume_op_run(s, c);
    }
    c
}

// The keyword from `at` to `end`, if one stands there and no comment directly behind it. Few operators begin as one does.
#[inline(always)]
fn run_of(s: &[u8], class: Class, at: usize, end: Cursor) -> Option<Kw>
    requires class_is { class.number ≡ classAt s.now at }
    requires left { LeftTo s.now at end.at }
    ensures { result ≡ keywordOf (runBefore (from s.now at) (from s.now end.at)) }
{
    if class == Class::SIGN_KEYWORD && !opens_comment(s, end) {
        return keyword_of(run_number(s, at, end.at));
    }
    None
}

/// An operator, whose first sign, of this class, ends at `next`; a keyword's run is an operator where a comment follows directly.
#[inline(always)]
pub fn lex_op_run(s: &[u8], c: Cursor, class: Class, next: Cursor) -> Piece
    requires within { c.at < length s.now }
    requires class_is { class.number ≡ classAt s.now c.at }
    requires next_within { next.at ≤ length s.now }
    requires next_same { afterRun freeSign (from s.now next.at) ≡ afterRun freeSign (from s.now c.at) }
    ensures { result ≡ pieceOf (length s.now) (scanOperator (from s.now c.at)) }
{
    let end = run_end_from(s, next);
    let run = run_of(s, class, c.at, end);
    match run {
        Some(k) => Ok((TokenKind::Kw(k), end)),
        None => Ok((TokenKind::OpId, end)),
    }
}

/// Past a backtick. A character past ASCII has no byte of a backtick, so bytes are enough.
#[inline(always)]
pub fn consume_backtick(s: &[u8], c: Cursor) -> Result<Cursor, Refused>
    requires within { c.at ≤ length s.now }
    requires opens { IsTrue (isAny "`" (from s.now c.at)) }
    ensures { result ≡ backtickOf (length s.now) (from s.now c.at) }
{
    let start = c.at;
    let end = run_end::<NoneOf<b'`', b'`', b'`', b'`'>>(s, start + 1);
    if s.len() <= end {
        return Err(Refusal::OpenBacktick.at(start));
    }
    if end == start + 1 {
        return Err(Refusal::EmptyBacktick.at(start));
    }
    Ok(Cursor { at: end + 1 })
}
