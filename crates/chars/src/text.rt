// A script read character by character.
ghost use Rattle.std.specs.Prelude.{◌≡◌, ◌+◌, ◌*◌, ◌≤◌, ◌<◌, ◌==◌, ◌&&◌, IsTrue, length, drop, nat_le, Some};
ghost use Rattle.chars.specs.paper.Quoted.{between};
ghost use Rattle.chars.specs.paper.Utf8.{width};
ghost use Rattle.chars.specs.paper.Classes.{isOpSign};
ghost use Rattle.chars.specs.code.Classes.{answers};
ghost use Rattle.chars.specs.code.Utf8.{decoded};
ghost use Rattle.chars.specs.code.Text.{beginsThree, threeBytes, formOfThree, idOfTwo, signWidth, stepAt};
ghost use Rattle.chars.specs.promises.Texts.{TextLaws};

use crate::classes::{Classes, classes_at};
use crate::utf8::{Decoded, code_at, is_plain_three, width_at};

// Whether the byte lies from low to high.
fn is_in(b: u8, low: u8, high: u8) -> bool
    ensures { result ≡ between low high b }
{
    low <= b && b <= high
}

// Whether the byte is one of those behind a character's first.
fn continues(b: u8) -> bool
    ensures { result ≡ between 0x80 0xBF b }
{
    is_in(b, 0x80, 0xBF)
}

// Whether a character of two bytes stands there.
#[inline(always)]
fn is_two(s: &[u8], at: usize) -> bool
    requires { at < length s.now }
    ensures { result ≡ width (drop at s.now) == 2 }
{
    is_in(s[at], 0xC2, 0xDF) && at + 1 < s.len() && continues(s[at + 1])
}

// Whether these are the first two bytes of a character of three: its block of 64 codes is none of the first 32, whose characters have fewer bytes, and
// none of the surrogates'.
#[tactic(auto, unfolding(crate::specs::code::Text::beginsThree))]
#[inline(always)]
fn begins_three(a: u8, b: u8) -> bool
    requires first { IsTrue (between 0xE0 0xEF a) }
    requires second { IsTrue (between 0x80 0xBF b) }
    ensures { result ≡ beginsThree a b }
{
    let half = block_of(a, b) / 32;
    half != 0 && half != 27
}

// Whether three bytes are one, of which the first is of E0 to EF: nearly always by the tables, which pass no direction mark.
#[inline(always)]
fn are_three(a: u8, b: u8, c: u8) -> bool
    requires { IsTrue (between 0xE0 0xEF a) }
    ensures { result ≡ threeBytes a b c }
{
    is_plain_three(a, b, c) || continues(b) && continues(c) && begins_three(a, b)
}

// Whether one stands there.
#[inline(always)]
fn is_three(s: &[u8], at: usize) -> bool
    requires { at < length s.now }
    ensures { result ≡ width (drop at s.now) == 3 }
{
    is_in(s[at], 0xE0, 0xEF) && at + 2 < s.len() && are_three(s[at], s[at + 1], s[at + 2])
}

// Whether one of four bytes does.
#[inline(always)]
fn is_four(s: &[u8], at: usize) -> bool
    requires { at < length s.now }
    ensures { result ≡ width (drop at s.now) == 4 }
{
    0xF0 <= s[at] && width_at(s, at).is_some()
}

// The block of 64 codes of a character of three bytes, by the first two.
#[inline(always)]
fn block_of(a: u8, b: u8) -> usize
    requires first { 0xE0 ≤ a }
    requires second { 0x80 ≤ b }
    ensures { result + 0x3880 ≡ 64 * a + b }
{
    a as usize * 64 + b as usize - 0x3880
}

// A character up to U+FFFF, by its code's block and the place there.
#[inline(always)]
fn told(block: usize, place: u32, width: usize) -> Decoded
    requires block { block < 1024 }
    requires place { place < 64 }
    ensures { Some result ≡ decoded (64 * block + place) width }
{
    Decoded {
        code: block as u32 * 64 + place,
        width,
        classes: classes_at(block, place),
    }
}

/// One look at the character that stands at a byte offset: its code, its width and what the four classes say of it. A byte with which no well-formed
/// character begins counts as a character of its own value, one byte wide.
// Characters of two bytes and of three come first, and their block of codes is read off the bytes.
#[inline(always)]
pub fn look(s: &[u8], at: usize) -> Decoded
    requires { at < length s.now }
    ensures { Some result ≡ stepAt s.now at }
{
    if is_two(s, at) {
        return told(s[at] as usize - 0xC0, (s[at + 1] % 64) as u32, 2);
    }
    if is_three(s, at) {
        return told(block_of(s[at], s[at + 1]), (s[at + 2] % 64) as u32, 3);
    }
    if is_four(s, at) {
        return Decoded {
            code: code_at(s, at, 4),
            width: 4,
            classes: Classes::NONE,
        };
    }
    told((s[at] / 64) as usize, (s[at] % 64) as u32, 1)
}

/// Whether an id character of two bytes stands at a byte offset, as a Cyrillic, a Greek or an accented letter is.
#[inline(always)]
pub fn is_id_of_two(s: &[u8], at: usize) -> bool
    requires { at < length s.now }
    ensures { result ≡ idOfTwo (stepAt s.now at) }
{
    let here = look(s, at);
    here.width == 2 && here.classes.id_char
}

// Whether the bytes there have the form of a character of three, as those of an overlong one and of a surrogate have, too.
#[tactic(auto, unfolding(crate::specs::code::Text::formOfThree))]
#[inline(always)]
fn has_form_of_three(s: &[u8], at: usize) -> bool
    requires { at < length s.now }
    ensures { result ≡ formOfThree s.now at }
{
    is_in(s[at], 0xE0, 0xEF) && at + 2 < s.len() && continues(s[at + 1]) && continues(s[at + 2])
}

// Whether the character of that form is an operator sign. Overlong ones have one of the first 32 blocks, and no surrogate is a sign.
#[inline(always)]
fn is_sign_of_three(block: usize, place: u32) -> bool
    requires block { block < 1024 }
    requires place { place < 64 }
    ensures { result ≡ nat_le 32 block && isOpSign (64 * block + place) }
{
    32 <= block && classes_at(block, place).op_sign
}

/// How many bytes the operator sign has that stands at a byte offset, if one does.
// Nearly all signs past ASCII have three bytes, so that form is asked for first. What has it and is no character is no sign: the first byte, which
// stands alone then, is none.
#[inline(always)]
pub fn sign_width(s: &[u8], at: usize) -> Option<usize>
    requires { at < length s.now }
    ensures { result ≡ signWidth (stepAt s.now at) }
{
    if has_form_of_three(s, at) {
        if is_sign_of_three(block_of(s[at], s[at + 1]), (s[at + 2] % 64) as u32) {
            return Some(3);
        }
        return None;
    }
    let here = look(s, at);
    if here.classes.op_sign {
        return Some(here.width);
    }
    None
}

/// The first character from a byte offset on; past the end there is none.
// `text_laws`: how a text is read by such steps, and what is left of it.
#[tactic(auto, using(crate::proofs::text::Steps::step_end, crate::proofs::theorems::Promises::told))]
#[inline(always)]
pub fn char_at(s: &[u8], at: usize) -> Option<Decoded>
    ensures value { result ≡ stepAt s.now at }
    ensures text_laws { TextLaws }
{
    if s.len() <= at {
        return None;
    }
    Some(look(s, at))
}
