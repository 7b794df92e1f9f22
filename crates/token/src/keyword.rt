// Keywords, by their bytes: the kind's number of a word, and of a run of operator signs. A record has the number, so no kind is made for it.
ghost use Rattle.std.specs.Prelude.{◌≡◌, if◌then◌else◌, [], ◌∷◌, ◌+◌, ◌≤◌, length};
ghost use Rattle.words.specs.Words.{twoAt, fourAt};
ghost use Rattle.chars.specs.paper.Text.{from};
ghost use Rattle.chars.specs.promises.Texts.{Suffix};
ghost use Rattle.token.specs.paper.Kinds.{wordOf, runOf, wordKeywords};
ghost use Rattle.token.specs.computed.Answer.{codesTo};
ghost use Rattle.token.specs.code.Keyword.{numberOr, keywordAt};

use crate::kinds::{Kw, TokenKind};

// Two bytes as one number, the lowest first, and four.
#[tactic(auto, unfolding(words::specs::Words::twoAt))]
fn two_of(s: &[u8], at: usize) -> u32
    requires { at + 2 ≤ length s.now }
    ensures { result ≡ twoAt s.now at }
{
    u32::from(u16::from_le_bytes([s[at], s[at + 1]]))
}

#[tactic(auto, unfolding(words::specs::Words::twoAt, words::specs::Words::fourAt))]
fn four_of(s: &[u8], at: usize) -> u32
    requires { at + 4 ≤ length s.now }
    ensures { result ≡ fourAt s.now at }
{
    u32::from_le_bytes([s[at], s[at + 1], s[at + 2], s[at + 3]])
}

// The keyword's number, where its bytes stand; else that of an identifier.
fn number_if(found: bool, number: u16) -> u16
    ensures { result ≡ (if found then number else 1) }
{
    if found { number } else { TokenKind::IDENT }
}

// The kind's number of the word of four bytes that stands there.
#[tactic(auto, using(crate::proofs::keyword::Laws::keywords))]
fn four_number(s: &[u8], at: usize) -> u16
    requires { at + 4 ≤ length s.now }
    ensures { result ≡ numberOr 1 (keywordAt wordKeywords 4 s.now at) }
{
    match four_of(s, at) {
        0x65736163 => Kw::CASE,
        0x65736C65 => Kw::ELSE,
        0x6E656874 => Kw::THEN,
        0x65757274 => Kw::TRUE,
        _ => TokenKind::IDENT,
    }
}

// The same for five bytes, six and eight.
#[tactic(auto, using(crate::proofs::keyword::Laws::keywords))]
fn five_number(s: &[u8], at: usize) -> u16
    requires { at + 5 ≤ length s.now }
    ensures { result ≡ numberOr 1 (keywordAt wordKeywords 5 s.now at) }
{
    match four_of(s, at + 1) {
        0x65736C61 => number_if(s[at] == 0x66, Kw::FALSE),
        0x68637461 => number_if(s[at] == 0x6D, Kw::MATCH),
        _ => TokenKind::IDENT,
    }
}

#[tactic(auto, using(crate::proofs::keyword::Laws::keywords))]
fn six_number(s: &[u8], at: usize) -> u16
    requires { at + 6 ≤ length s.now }
    ensures { result ≡ numberOr 1 (keywordAt wordKeywords 6 s.now at) }
{
    number_if(
        (four_of(s, at) == 0x75746572) & (two_of(s, at + 4) == 0x6E72),
        Kw::RETURN,
    )
}

#[tactic(auto, using(crate::proofs::keyword::Laws::keywords))]
fn eight_number(s: &[u8], at: usize) -> u16
    requires { at + 8 ≤ length s.now }
    ensures { result ≡ numberOr 1 (keywordAt wordKeywords 8 s.now at) }
{
    number_if(
        (four_of(s, at) == 0x636E7566) & (four_of(s, at + 4) == 0x6E6F6974),
        Kw::FUNCTION,
    )
}

/// The kind's number of the identifier from `at` to `end`. Most differ from all nine words in their length. A `match` of the slice with the words as
/// byte strings was tried: it is slower, on keywords by a fifth.
#[tactic(auto, using(crate::proofs::keyword::Laws::keywords))]
pub fn word_number(s: &[u8], at: usize, end: usize) -> u16
    requires order { at ≤ end }
    requires within { end ≤ length s.now }
    requires suffix { Suffix (from s.now end) (from s.now at) }
    ensures { result ≡ numberOr 1 (wordOf (codesTo (from s.now at) (from s.now end))) }
{
    match end - at {
        2 => number_if(two_of(s, at) == 0x6669, Kw::IF),
        4 => four_number(s, at),
        5 => five_number(s, at),
        6 => six_number(s, at),
        8 => eight_number(s, at),
        _ => TokenKind::IDENT,
    }
}

// The kind's number of one operator sign.
#[tactic(auto, unfolding(crate::specs::code::Keyword::numberOr, crate::specs::paper::Kinds::runOf))]
fn sign_number(b: u8) -> u16
    ensures { result ≡ numberOr 2 (runOf (b ∷ [])) }
{
    match b {
        0x3A => Kw::COLON,
        0x3D => Kw::ASSIGN,
        0x23 => Kw::HASH,
        0x40 => Kw::AT,
        _ => TokenKind::OP_ID,
    }
}

/// The kind's number of the operator from `at` to `end`, if no comment stands behind it.
#[tactic(auto, using(crate::proofs::keyword::Laws::keywords))]
pub fn run_number(s: &[u8], at: usize, end: usize) -> u16
    requires order { at ≤ end }
    requires within { end ≤ length s.now }
    requires suffix { Suffix (from s.now end) (from s.now at) }
    ensures { result ≡ numberOr 2 (runOf (codesTo (from s.now at) (from s.now end))) }
{
    match end - at {
        1 => sign_number(s[at]),
        2 => if two_of(s, at) == 0x3E3D {
            Kw::FAT_ARROW
        } else {
            TokenKind::OP_ID
        },
        _ => TokenKind::OP_ID,
    }
}
