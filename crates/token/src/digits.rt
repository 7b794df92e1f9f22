// Digits: one walk over a run and one value, for numbers and escapes alike. RULES, "Digits", "Number" and "Escape".
ghost use Rattle.std.specs.Prelude.{◌≡◌, ◌≢◌, IsTrue, ℕ, ◌^◌, ◌%◌, ◌-◌, ◌≤◌, ◌<◌, length, slice_index};
ghost use Rattle.chars.specs.paper.Text.{Text, from};
ghost use Rattle.token.specs.paper.Digits.{IsBase, digitIn, RunEnds, digitsTo, fitting};
ghost use Rattle.token.specs.paper.Shapes.{valueOfDigits};
ghost use Rattle.token.specs.paper.Tests.{isDigit, digitValue, hexAhead};
ghost use Rattle.token.specs.computed.Answer.{numeral, readDigits, numberOf, scanNumber};
ghost use Rattle.token.specs.code.Digits.{digitOf, letterOf, Untested, intOr, longOr, numberBy};
ghost use Rattle.token.specs.code.Piece.{pieceOf};

use crate::cursor::{Cursor, byte_at};
use crate::kinds::TokenKind;
use crate::piece::Piece;
use crate::refusal::Refusal;
use chars::runs::{OneOf, run_end};

/// The limits of numbers.
#[derive(Clone, Copy, Debug, PartialEq, Eq)]
pub struct Value;

impl Value {
    pub const LONG_MOST: u64 = 9223372036854775807;

    pub const INT_MOST: u64 = 2147483647;
}

// The value of a letter that is a hex digit. With the bit of weight 32 a capital is its small letter.
#[tactic(auto, using(crate::proofs::digits::Laws::letters))]
fn letter_of(b: u8) -> Option<u64>
    ensures { result ≡ letterOf b }
{
    match b | 0x20 {
        c @ b'a'..=b'f' => Some((c - b'a' + 10) as u64),
        _ => None,
    }
}

// The value of a digit of this base, 10 or 16; None of any other byte.
#[tactic(auto, unfolding(crate::specs::code::Digits::digitOf, crate::specs::code::Digits::letterOf, crate::specs::paper::Digits::digitIn, crate::specs::paper::Tests::isDigit, crate::specs::paper::Tests::isHexDigit))]
fn digit_of<const BASE: u64>(b: u8) -> Option<u64>
    ensures { result ≡ digitOf BASE b }
{
    match b {
        b'0'..=b'9' => Some((b - b'0') as u64),
        _ if BASE == 16 => letter_of(b),
        _ => None,
    }
}

// Is the byte a digit of this base: 16, else 10? Through `digit_of` hex numbers would take up to 14 per cent more instructions.
#[tactic(auto, unfolding(crate::specs::paper::Digits::digitIn, crate::specs::paper::Tests::isDigit, crate::specs::paper::Tests::isHexDigit))]
fn is_digit(b: u8, base: u64) -> bool
    ensures { result ≡ digitIn base b }
{
    match b {
        b'0'..=b'9' => true,
        b'A'..=b'F' => base == 16,
        b'a'..=b'f' => base == 16,
        _ => false,
    }
}

// Do `0x` and a hex digit stand there? The `x` is looked for first: few numbers have one.
#[tactic(auto, using(crate::proofs::digits::Laws::hex_bytes))]
fn hex_ahead(s: &[u8], c: Cursor) -> bool
    requires { c.at ≤ length s.now }
    ensures { result ≡ hexAhead (from s.now c.at) }
{
    byte_at(s, c.at + 1) == b'x' && is_digit(byte_at(s, c.at + 2), 16) && s[c.at] == b'0'
}

// Above the most of every kind.
const ABOVE_ALL: u64 = u64::MAX;

/// A run of digits: where it ends, its value modulo 2^64, and the byte behind it.
#[derive(Clone, Copy, Debug, PartialEq, Eq)]
pub struct DigitRun {
    pub end: usize,
    pub value: u64,
    pub next: u8,
}

/// The digits of a base, 10 or 16, that stand there, at most so many. The base is compiled in: each has its own loop, as fast as one that is written
/// for it.
#[inline(always)]
pub fn digit_run<const BASE: u64>(s: &[u8], at: usize, most: usize) -> DigitRun
    requires base { IsBase BASE }
    requires within { at ≤ length s.now }
    ensures run { RunEnds BASE most s.now at result.end }
    ensures alone { (e : ℕ) → RunEnds BASE most s.now at e → e ≡ result.end }
    ensures value { result.value ≡ valueOfDigits BASE (digitsTo s.now at result.end) % 2 ^ 64 }
    ensures own { result.end - at ≤ fitting BASE → result.value ≡ valueOfDigits BASE (digitsTo s.now at result.end) }
    ensures next { result.next ≡ slice_index s.now result.end }
{
    let mut value: u64 = 0;
    let mut i = at;
    // The count goes beside the place: the sum of both might not fit. One walk gives the end, the value and the byte behind.
    for _ in 0..most {
        let b = byte_at(s, i);
        let Some(d) = digit_of::<BASE>(b) else {
            return DigitRun {
                end: i,
                value,
                next: b,
            };
        };
        value = value.wrapping_mul(BASE).wrapping_add(d);
        i += 1;
    }
    DigitRun {
        end: i,
        value,
        next: byte_at(s, i),
    }
}

// Past the zeros that stand there.
fn skip_zeros(s: &[u8], at: usize) -> usize
    requires { at ≤ length s.now }
    ensures within { result ≤ length s.now }
    ensures past { slice_index s.now result ≢ 0x30 }
    ensures value { (base : ℕ) → readDigits (digitIn base) base 0 (from s.now result) ≡ readDigits (digitIn base) base 0 (from s.now at) }
{
    run_end::<OneOf<b'0', b'0'>>(s, at)
}

// The same where more digits stand there than are read at once: zeros lead them, or their value is above every most.
#[inline(never)]
fn long_run<const BASE: u64, const MOST: usize>(s: &[u8], at: usize) -> DigitRun
    requires within { at ≤ length s.now }
    requires untested { Untested BASE MOST }
    ensures within { result.end ≤ length s.now }
    ensures next { result.next ≡ slice_index s.now result.end }
    ensures same { (t : Text) → numberOf t (numeral result.value (from s.now result.end)) ≡ numberOf t (readDigits (digitIn BASE) BASE 0 (from s.now at)) }
{
    let run = digit_run::<BASE>(s, skip_zeros(s, at), MOST);
    if is_digit(run.next, BASE) {
        return DigitRun {
            value: ABOVE_ALL,
            ..run
        };
    }
    run
}

// An IntLit, unless it is too large. With its limit and its variant as parameters, one function for both would be as long.
#[tactic(auto, unfolding(crate::specs::code::Digits::intOr))]
#[inline(always)]
fn int_literal(start: usize, v: u64, end: Cursor) -> Piece
    ensures { result ≡ intOr start v end }
{
    if Value::INT_MOST < v {
        return Err(Refusal::LargeNumber.at(start));
    }
    Ok((TokenKind::IntLit(v as u32), end))
}

// A LongLit, unless it is too large.
#[tactic(auto, unfolding(crate::specs::code::Digits::longOr))]
#[inline(always)]
fn long_literal(start: usize, v: u64, end: Cursor) -> Piece
    ensures { result ≡ longOr start v end }
{
    if Value::LONG_MOST < v {
        return Err(Refusal::LargeNumber.at(start));
    }
    Ok((TokenKind::LongLit(v), end))
}

// The number that begins at `start` and has these digits: `L` or `l` behind them makes it a LongLit.
#[inline(always)]
#[tactic(auto, unfolding(crate::specs::code::Digits::numberBy))]
fn number_of(start: usize, run: DigitRun) -> Piece
    requires { run.end < 18446744073709551615 }
    ensures { result ≡ numberBy start run }
{
    match run.next {
        b'L' | b'l' => long_literal(start, run.value, Cursor { at: run.end + 1 }),
        _ => int_literal(start, run.value, Cursor { at: run.end }),
    }
}

// A function of its own, so that the memory through which `long_run` answers is cleared only where a number is that long.
#[inline(always)]
fn long_number<const BASE: u64, const MOST: usize>(s: &[u8], start: usize, at: usize) -> Piece
    requires order { start ≤ at }
    requires within { at ≤ length s.now }
    requires untested { Untested BASE MOST }
    ensures { result ≡ pieceOf (length s.now) (numberOf (from s.now start) (readDigits (digitIn BASE) BASE 0 (from s.now at))) }
{
    number_of(start, long_run::<BASE, MOST>(s, at))
}

// The number that begins at `start` and whose digits of a base begin at `at`.
#[inline(always)]
fn number_in<const BASE: u64, const MOST: usize>(s: &[u8], start: usize, at: usize) -> Piece
    requires order { start ≤ at }
    requires within { at ≤ length s.now }
    requires untested { Untested BASE MOST }
    ensures { result ≡ pieceOf (length s.now) (numberOf (from s.now start) (readDigits (digitIn BASE) BASE 0 (from s.now at))) }
{
    let run = digit_run::<BASE>(s, at, MOST);
    if is_digit(run.next, BASE) {
        return long_number::<BASE, MOST>(s, start, at);
    }
    number_of(start, run)
}

/// The number that stands there.
#[inline(always)]
#[tactic(auto, using(crate::proofs::digits::Laws::scanned))]
pub fn lex_number(s: &[u8], c: Cursor) -> Piece
    requires { c.at ≤ length s.now }
    ensures { result ≡ pieceOf (length s.now) (scanNumber (from s.now c.at)) }
{
    if hex_ahead(s, c) {
        return number_in::<16, 16>(s, c.at, c.at + 2);
    }
    number_in::<10, 19>(s, c.at, c.at)
}

/// The value of the digit that stands there.
#[tactic(auto, unfolding(crate::specs::paper::Tests::isDigit))]
pub fn digit_value(s: &[u8], at: usize) -> u64
    requires within { at < length s.now }
    requires digit { IsTrue (isDigit (slice_index s.now at)) }
    ensures { result ≡ digitValue (slice_index s.now at) }
{
    s[at] as u64 % 16
}
