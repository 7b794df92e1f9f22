// Characters and symbols. RULES, "Character" and "Symbol".
ghost use Rattle.std.specs.Prelude.{◌≡◌, ◌≢◌, false, IsTrue, IsFalse, not, ◌&&◌, ◌≤◌, ◌<◌, ◌==◌, length, drop, slice_index};
ghost use Rattle.chars.specs.paper.Quoted.{between};
ghost use Rattle.chars.specs.paper.Text.{from};
ghost use Rattle.token.specs.paper.Tests.{apostrophe, opSign};
ghost use Rattle.token.specs.computed.Answer.{afterIdent, tickNext, scanCharSym};
ghost use Rattle.token.specs.code.ByteClass.{classAt, wideClass, upToBlank, startsWord, inWord};
ghost use Rattle.token.specs.code.Names.{hereOf, lowBefore};
ghost use Rattle.token.specs.code.Piece.{pieceOf};
ghost use Rattle.token.specs.code.Charsym.{escapedChar, plainOf, endOf, runSymbolEnd};

use crate::byte_class::Class;
use crate::cursor::{Cursor, byte_at};
use crate::ident::{consume_op_run, name_end, opens_comment};
use crate::kinds::TokenKind;
use crate::names::{Here, run_end, word_end};
use crate::piece::Piece;
use crate::refusal::Refusal;
use crate::string::consume_escape;
use chars::text::look;
use chars::utf8::Decoded;

/// A character or a symbol, from its `'` on.
#[inline(always)]
pub fn lex_char_sym(s: &[u8], c: Cursor) -> Piece
    requires within { c.at ≤ length s.now }
    requires opens { IsTrue (apostrophe (from s.now c.at)) }
    ensures { result ≡ pieceOf (length s.now) (scanCharSym (from s.now c.at)) }
{
    let name = Cursor { at: c.at + 1 };
    let b = byte_at(s, name.at);
    if b == b'\\' {
        return lex_escaped_char(s, Cursor { at: name.at + 1 });
    }
    let plain = plain_end(s, name, b);
    let Some(end) = plain else {
        return Err(Refusal::NoSymbol.at(name.at));
    };
    Ok((TokenKind::CharSym, end))
}

// A character that is an escape, from behind its backslash.
#[inline(always)]
fn lex_escaped_char(s: &[u8], c: Cursor) -> Piece
    requires { c.at ≤ length s.now }
    ensures { result ≡ pieceOf (length s.now) (escapedChar (from s.now c.at)) }
{
    let end = consume_escape(s, c)?;
    close_char(s, end)
}

// The `'` after an escape.
#[tactic(auto, using(crate::proofs::charsym::Laws::tick_next))]
#[inline(always)]
fn close_char(s: &[u8], c: Cursor) -> Piece
    requires { c.at ≤ length s.now }
    ensures { result ≡ pieceOf (length s.now) (tickNext (from s.now c.at)) }
{
    if byte_at(s, c.at) != b'\'' {
        return Err(Refusal::NoTick.at(c.at));
    }
    Ok((TokenKind::CharSym, Cursor { at: c.at + 1 }))
}

// A printable of ASCII?
fn is_plain(b: u8) -> bool
    ensures { result ≡ between 0x20 0x7E b }
{
    matches!(b, b' '..=b'~')
}

// Does the byte `b` stand for itself, with a `'` behind it?
fn is_char(s: &[u8], next: Cursor, b: u8) -> bool
    ensures { result ≡ slice_index s.now next.at == 0x27 && between 0x20 0x7E b }
{
    byte_at(s, next.at) == b'\'' && is_plain(b)
}

// Where the character or the symbol ends that begins with the byte `b`, which opens no escape; None, where none stands there. Most are of ASCII, with
// nothing behind them that makes more of them.
#[inline(always)]
fn plain_end(s: &[u8], c: Cursor, b: u8) -> Option<Cursor>
    requires within { c.at ≤ length s.now }
    requires byte { b ≡ slice_index s.now c.at }
    requires no_escape { b ≢ 0x5C }
    ensures { result ≡ endOf (length s.now) (plainOf (from s.now c.at)) }
{
    let next = Cursor { at: c.at + 1 };
    if is_char(s, next, b) {
        return Some(Cursor { at: next.at + 1 });
    }
    let class = Class::of(b);
    if begins_word(class) {
        return Some(name_symbol_end(s, c.at, next.at));
    }
    if class == Class::WIDE {
        return wide_end(s, c);
    }
    if class.in_run() {
        let end = run_end(s, next.at);
        if !end.class.in_operator() {
            return Some(Cursor { at: end.at });
        }
    }
    if class.is_op() {
        return run_symbol_end(s, c);
    }
    if b == b';' && !sign_at(s, next) {
        return Some(next);
    }
    None
}

// Where the identifier from `start` on ends, whose first character ends at `next`.
#[inline(always)]
fn name_symbol_end(s: &[u8], start: usize, next: usize) -> Cursor
    requires start { start < length s.now }
    requires within { next ≤ length s.now }
    requires next_same { from s.now next ≡ drop 1 (from s.now start) }
    ensures within { result.at ≤ length s.now }
    ensures rest { from s.now result.at ≡ afterIdent false (from s.now next) }
{
    let end = word_end(s, next);
    if end.class.asks_more() {
        return more_name(s, start, end);
    }
    Cursor { at: end.at }
}

// Where the identifier from `start` on ends, whose ASCII id characters and underscores end at `end`.
#[inline(never)] // as `run_symbol_end`: what is rare takes no registers of the walk's then
fn more_name(s: &[u8], start: usize, end: Here) -> Cursor
    requires some { start < end.at }
    requires within { end.at ≤ length s.now }
    requires here { end ≡ hereOf s.now end.at }
    requires stops { IsFalse (inWord end.class.number) }
    ensures within { result.at ≤ length s.now }
    ensures rest { from s.now result.at ≡ afterIdent (lowBefore s.now start end.at) (from s.now end.at) }
{
    name_end(s, start, end)
}

// An id start of ASCII?
fn begins_word(class: Class) -> bool
    ensures { result ≡ not (upToBlank class.number) && startsWord class.number }
{
    !class.is_sign() && class.starts_word()
}

// The same where a character past ASCII stands.
#[inline(always)]
fn wide_end(s: &[u8], c: Cursor) -> Option<Cursor>
    requires within { c.at ≤ length s.now }
    requires wide { IsTrue (classAt s.now c.at == wideClass) }
    ensures { result ≡ endOf (length s.now) (plainOf (from s.now c.at)) }
{
    let (here, next) = c.peek(s)?;
    if closes_char(s, here, next) {
        return Some(Cursor { at: next.at + 1 });
    }
    if here.classes.id_start {
        return Some(name_symbol_end(s, c.at, next.at));
    }
    if here.classes.op_sign {
        return Some(consume_op_run(s, next));
    }
    None
}

// Is the character printable, and a `'` next?
fn closes_char(s: &[u8], here: Decoded, next: Cursor) -> bool
    ensures { result ≡ here.classes.printable && slice_index s.now next.at == 0x27 }
{
    byte_at(s, next.at) == b'\'' && here.classes.printable
}

// Where the run of operator signs ends that stands there; None, where a comment begins.
#[inline(never)]
fn run_symbol_end(s: &[u8], c: Cursor) -> Option<Cursor>
    requires { c.at ≤ length s.now }
    ensures { result ≡ runSymbolEnd (length s.now) (from s.now c.at) }
{
    if opens_comment(s, c) {
        return None;
    }
    Some(consume_op_run(s, c))
}

// Does an operator sign stand there? Of a character past ASCII a byte does not tell.
fn sign_at(s: &[u8], c: Cursor) -> bool
    requires { c.at ≤ length s.now }
    ensures { result ≡ opSign (from s.now c.at) }
{
    let class = Class::at(s, c.at);
    if class == Class::WIDE {
        return look(s, c.at).classes.op_sign;
    }
    class.is_op()
}
