// UTF-8 by the Unicode Standard, Table 3-7. One look at a character is compiled into whoever takes it: so a loop over characters keeps it in registers.
ghost use Rattle.std.specs.Prelude.{◌≡◌, [], ◌∷◌, ◌+◌, ◌<◌, ◌≤◌, ◌%◌, not, map, take, drop, slice_index, length, IfSome, IfNone};
ghost use Rattle.std.specs.Simd.Lanes.{mask_l};
ghost use Rattle.chars.specs.paper.Ranges.{◌to◌};
ghost use Rattle.chars.specs.paper.Utf8.{fits, codeOf, LongestValid};
ghost use Rattle.chars.specs.code.Utf8.{widthAt, decodeAt, rowsOver, plainThree, plainAt, plainOver, markAt, CleanTo, Stops, isAscii, manyAt, manyOver};
ghost use Rattle.chars.specs.computed.Valid.{validPrefix};
ghost use Rattle.chars.specs.computed.Marks.{checked};
ghost use Rattle.chars.specs.promises.Utf8.{Decoding, ValidLaws, EncodingLaws};
ghost use Rattle.chars.specs.promises.Marks.{MarkLaws};
ghost use Rattle.chars.specs.promises.StdUtf8.{StdLaws};

use crate::classes::{Classes, classes_of};
use crate::marks::is_mark;
use crate::runs::{InRange, LANES, outside_at, run_end};
use crate::thirds::{KINDS, SETS, THIRDS};
use std::simd::prelude::*;

/// A character: its code, how many bytes it has, and what the four classes say of it.
#[derive(Clone, Copy, Debug, PartialEq, Eq)]
pub struct Decoded {
    pub code: u32,
    pub width: usize,
    pub classes: Classes,
}

// Whether a byte from low to high stands at `at`. Here and below the two are numbers, as Table 3-7 has them: std's inclusive range is not `Copy`.
#[inline(always)]
pub fn byte_in(s: &[u8], at: usize, low: u8, high: u8) -> bool
    ensures { result ≡ fits (low to high ∷ []) (drop at s.now) }
{
    at < s.len() && low <= s[at] && s[at] <= high
}

// Whether a byte from low to high stands at `at` and one from low2 to high2 after it.
#[inline(always)]
pub fn pair_in(s: &[u8], at: usize, low: u8, high: u8, low2: u8, high2: u8) -> bool
    ensures { result ≡ fits (low to high ∷ low2 to high2 ∷ []) (drop at s.now) }
{
    byte_in(s, at, low, high) && byte_in(s, at + 1, low2, high2)
}

// Whether a byte from low to high stands at `at` and two from 80 to BF after it.
#[inline(always)]
fn triple_in(s: &[u8], at: usize, low: u8, high: u8) -> bool
    requires { at ≤ length s.now }
    ensures { result ≡ fits (low to high ∷ 0x80 to 0xBF ∷ 0x80 to 0xBF ∷ []) (drop at s.now) }
{
    pair_in(s, at, low, high, 0x80, 0xBF) && byte_in(s, at + 2, 0x80, 0xBF)
}

/// How many bytes the well-formed character has that stands at `at`. The arms are the table's rows; those of one byte and two are told first.
#[inline(always)]
pub fn width_at(s: &[u8], at: usize) -> Option<usize>
    ensures { result ≡ widthAt s.now at }
{
    if s.len() <= at {
        return None;
    }
    if s[at] < 0xE0 {
        return match s[at] {
            0x00..=0x7F => Some(1),
            0xC2..=0xDF => byte_in(s, at + 1, 0x80, 0xBF).then_some(2),
            _ => None,
        };
    }
    match s[at] {
        0xE0 => pair_in(s, at + 1, 0xA0, 0xBF, 0x80, 0xBF).then_some(3),
        0xE1..=0xEC => pair_in(s, at + 1, 0x80, 0xBF, 0x80, 0xBF).then_some(3),
        0xED => pair_in(s, at + 1, 0x80, 0x9F, 0x80, 0xBF).then_some(3),
        0xEE..=0xEF => pair_in(s, at + 1, 0x80, 0xBF, 0x80, 0xBF).then_some(3),
        0xF0 => triple_in(s, at + 1, 0x90, 0xBF).then_some(4),
        0xF1..=0xF3 => triple_in(s, at + 1, 0x80, 0xBF).then_some(4),
        0xF4 => triple_in(s, at + 1, 0x80, 0x8F).then_some(4),
        _ => None,
    }
}

// The low six bits of the byte at `at`.
#[inline(always)]
fn six_bits(s: &[u8], at: usize) -> u32
    requires { at < length s.now }
    ensures value { result ≡ slice_index s.now at % 64 }
    ensures upper_bound { result < 64 }
{
    (s[at] % 64) as u32
}

/// The code of the character of w bytes at `at`, by the Unicode Standard, Table 3-6.
#[inline(always)]
pub fn code_at(s: &[u8], at: usize, w: usize) -> u32
    requires some { 1 ≤ w }
    requires most { w ≤ 4 }
    requires within { at + w ≤ length s.now }
    ensures { result ≡ codeOf w (drop at s.now) }
{
    let a = s[at] as u32;
    match w {
        1 => a,
        2 => a % 32 * 64 + six_bits(s, at + 1),
        3 => a % 16 * 4096 + six_bits(s, at + 1) * 64 + six_bits(s, at + 2),
        _ => {
            a % 8 * 262144
                + six_bits(s, at + 1) * 4096
                + six_bits(s, at + 2) * 64
                + six_bits(s, at + 3)
        }
    }
}

/// The character that stands at a byte offset. Past the end none does.
// `decoding` says what follows of it, `encoding_laws` what is decoded from the bytes that are written for a code.
#[tactic(auto, using(crate::proofs::utf8::Stands::decode_none, crate::proofs::utf8::Stands::decode_some))]
#[inline(always)]
pub fn decode(s: &[u8], at: usize) -> Option<Decoded>
    ensures value { result ≡ decodeAt s.now at }
    ensures decoding { Decoding s.now at }
    ensures encoding_laws { EncodingLaws }
{
    let width = width_at(s, at)?;
    let code = code_at(s, at, width);
    Some(Decoded {
        code,
        width,
        classes: classes_of(code),
    })
}

// How many bytes are looked at together where ASCII goes on, as in most scripts it does to the end.
const MANY: usize = 64;

// Of the sixty-four bytes from `at` on a bit for each: 1 where the byte is past ASCII. None where fewer stand there. How many bytes a vector has is part
// of its type, so this is no set of runs, which are tested by sixteen.
#[inline(always)]
fn wide_at(s: &[u8], at: usize) -> Option<u64>
    ensures mask { IfSome result (λ m. m ≡ mask_l (map (λ b. not (isAscii b)) (take 64 (drop at s.now)))) }
    ensures within { IfSome result (λ _. at + 64 ≤ length s.now) }
    ensures none { IfNone result (length s.now < at + 64) }
{
    if MANY <= s.len() && at <= s.len() - MANY {
        let block = u8x64::from_slice(&s[at..]);
        Some(block.simd_gt(u8x64::splat(0x7F)).to_bitmask())
    } else {
        None
    }
}

// Whether sixty-four bytes of ASCII stand from `at` on.
#[inline(always)]
fn many_at(s: &[u8], at: usize) -> bool
    ensures { result ≡ manyAt s.now at }
{
    match wide_at(s, at) {
        Some(wide) => wide == 0,
        None => false,
    }
}

// The place past the ASCII bytes that stand from `at` on, as far as they fill blocks of sixty-four. No iterator, as for `skip_plain` below.
fn skip_many(s: &[u8], at: usize) -> usize
    ensures { result ≡ manyOver s.now at }
{
    let mut i = at;
    while many_at(s, i) {
        i += MANY;
    }
    i
}

// The place past the ASCII bytes that stand from `at` on, behind one. Between words past ASCII that one mostly stands alone: so it is asked whether
// another follows, before sixteen are looked at.
fn ascii_end(s: &[u8], at: usize) -> usize
    ensures { result ≡ rowsOver (0x00 to 0x7F ∷ []) s.now at }
{
    if !byte_in(s, at, 0x00, 0x7F) {
        return at;
    }
    match outside_at::<InRange<0x00, 0x7F>>(s, at) {
        Some(0) => run_end::<InRange<0x00, 0x7F>>(s, skip_many(s, at + LANES)),
        Some(outside) => at + outside.trailing_zeros() as usize,
        None => run_end::<InRange<0x00, 0x7F>>(s, at),
    }
}

/// Whether these three bytes are a well-formed character and no direction mark.
#[inline(always)]
pub fn is_plain_three(a: u8, b: u8, c: u8) -> bool
    ensures { result ≡ plainThree a b c }
{
    SETS[b as usize * 8 + KINDS[a as usize] as usize] & THIRDS[c as usize] != 0
}

// Whether a character of three bytes stands at `at` that is no direction mark.
fn plain_in(s: &[u8], at: usize) -> bool
    ensures { result ≡ plainAt s.now at }
{
    s.len() >= 3 && at <= s.len() - 3 && is_plain_three(s[at], s[at + 1], s[at + 2])
}

// The place past such characters that stand from `at` on. No iterator says where it stopped but by a count, so the place is kept by hand.
fn skip_plain(s: &[u8], at: usize) -> usize
    ensures { result ≡ plainOver s.now at }
{
    let mut i = at;
    while plain_in(s, i) {
        i += 3;
    }
    i
}

// The first place from `at` on where no well-formed character stands, or a direction mark.
// Runs of ASCII and of characters of three bytes are passed in loops of their own, and characters of two bytes are tested before the others.
// A step is a run or a character: no iterator takes such steps.
fn clean_end(s: &[u8], at: usize) -> usize
    requires { at ≤ length s.now }
    ensures clean { CleanTo s.now at result }
    ensures stops { Stops s.now result }
{
    let mut i = at;
    while i < s.len() {
        if s[i] < 0x80 {
            i = ascii_end(s, i + 1);
        } else if pair_in(s, i, 0xC2, 0xDF, 0x80, 0xBF) {
            i += 2;
        } else if 0xF0 <= s[i] {
            let Some(w) = width_at(s, i) else {
                return i;
            };
            i += w;
        } else if plain_in(s, i) {
            i = skip_plain(s, i + 3);
        } else {
            return i;
        }
    }
    i
}

// Whether a direction mark stands at `at`. Out of line: only scripts that have one, or are not UTF-8, come to it.
#[inline(never)]
fn mark_at(s: &[u8], at: usize) -> bool
    ensures { result ≡ markAt s.now at }
{
    match decode(s, at) {
        Some(c) => is_mark(c.code),
        None => false,
    }
}

/// Whether the bytes are UTF-8, and where the first direction mark stands, if one does. Of bytes that are not UTF-8 the error is the length of the
/// longest prefix that is a sequence of well-formed characters.
// One walk for both. `mark_laws`: what is computed of the first mark is what is declared.
#[inline(always)] // for short scripts: a call hands its answer on through memory
pub fn check(s: &[u8]) -> Result<Option<usize>, usize>
    ensures value { result ≡ checked s.now }
    ensures mark_laws { MarkLaws }
{
    let mut mark = None;
    let mut i = clean_end(s, 0);
    while i < s.len() {
        if !mark_at(s, i) {
            return Err(i);
        }
        mark = mark.or(Some(i));
        i = clean_end(s, i + 3);
    }
    Ok(mark)
}

/// The length of the longest prefix that is a sequence of well-formed characters.
// `valid_laws`: there is one such prefix, and a text is well-formed where it is all of it. `std_laws`: it is the longest prefix that is UTF-8 by std.
pub fn valid_prefix(s: &[u8]) -> usize
    ensures value { result ≡ validPrefix s.now }
    ensures longest { LongestValid s.now result }
    ensures valid_laws { ValidLaws }
    ensures std_laws { StdLaws }
{
    match check(s) {
        Ok(_) => s.len(),
        Err(valid) => valid,
    }
}
