// One record of a roll: its token and the cursor behind it, or a refusal. REQUESTS, "Reading a roll".
ghost use Rattle.std.specs.Prelude.{◌≡◌, IfOk};
ghost use Rattle.rolls.specs.computed.Roll.{badValues, isWrong, stepHeld, readAt, eofFollowed};
ghost use Rattle.rolls.specs.code.Record.{lengthIf, kindIf, kindOf, stepOf};

use crate::refusal::{Refusal, Refused};
use token::form::Held;
use token::kinds::{Kw, TokenKind, keyword_of};

/// A place in a roll: the offset of a record, and where the token before it ends in the script.
#[derive(Clone, Copy, Debug, PartialEq, Eq)]
pub struct RollCursor {
    pub at: usize,
    pub previous: usize,
}

/// A token by its kind with the values, its start, end and cut, and the cursor behind its record.
#[derive(Clone, Copy, Debug, PartialEq, Eq)]
pub struct Yielded {
    pub kind: TokenKind,
    pub start: usize,
    pub end: usize,
    pub cut: bool,
    pub next: RollCursor,
}

// The length of a kind's record, by the kind's number: the values are not read yet.
#[tactic(auto, unfolding(crate::specs::code::Record::lengthIf, crate::specs::computed::Roll::lengthFor))]
fn length_for(number: u16) -> Option<u16>
    ensures { result ≡ lengthIf number }
{
    match number {
        TokenKind::INT_LIT => Some(TokenKind::INT_LIT_LENGTH),
        TokenKind::LONG_LIT => Some(TokenKind::LONG_LIT_LENGTH),
        TokenKind::STR => Some(TokenKind::STR_LENGTH),
        TokenKind::NEWLINE => Some(TokenKind::NEWLINE_LENGTH),
        TokenKind::IDENT..=TokenKind::EOF | Kw::CASE..=Kw::AT => Some(TokenKind::HEAD_LENGTH),
        _ => None,
    }
}

// A kind by its number, with the values as one number.
#[tactic(auto, unfolding(crate::specs::code::Record::kindIf, token::specs::code::Keyword::keywordBy, token::specs::code::Keyword::keywordAmong, crate::specs::computed::Roll::keywordFor, crate::specs::computed::Roll::kindFor, crate::specs::computed::Roll::lengthFor))]
fn kind_for(number: u16, values: u64) -> Option<TokenKind>
    ensures { result ≡ kindIf number values }
{
    let kind = match number {
        TokenKind::IDENT => TokenKind::Ident,
        TokenKind::OP_ID => TokenKind::OpId,
        TokenKind::BACKTICK_ID => TokenKind::BacktickId,
        TokenKind::INT_LIT => TokenKind::IntLit((values & 0xFFFF_FFFF) as u32),
        TokenKind::LONG_LIT => TokenKind::LongLit(values),
        TokenKind::STR => TokenKind::Str {
            from: (values & 0xFFFF_FFFF) as usize,
            to: (values >> 32) as usize,
        },
        TokenKind::CHAR_SYM => TokenKind::CharSym,
        TokenKind::L_PAREN => TokenKind::LParen,
        TokenKind::R_PAREN => TokenKind::RParen,
        TokenKind::L_BRACKET => TokenKind::LBracket,
        TokenKind::R_BRACKET => TokenKind::RBracket,
        TokenKind::L_BRACE => TokenKind::LBrace,
        TokenKind::R_BRACE => TokenKind::RBrace,
        TokenKind::COMMA => TokenKind::Comma,
        TokenKind::SEMI => TokenKind::Semi,
        TokenKind::DOT => TokenKind::Dot,
        TokenKind::NEWLINE => TokenKind::Newline(values == 1),
        TokenKind::EOF => TokenKind::Eof,
        _ => TokenKind::Kw(keyword_of(number)?),
    };
    Some(kind)
}

// The kind of a record, where there is one of its number and length.
#[tactic(auto, using(crate::proofs::record::Laws::no_kind), unfolding(crate::specs::code::Record::kindOf, crate::specs::code::Record::kindIf, crate::specs::code::Record::lengthIf, crate::specs::computed::Roll::isKind))]
#[inline(always)] // so that a call that reads stored records has one frame
fn kind_of(held: Held) -> Option<TokenKind>
    ensures { result ≡ kindOf held }
{
    let number = u16::try_from(held.number).ok()?;
    if length_for(number)? as u64 != held.length {
        return None;
    }
    kind_for(number, held.values)
}

// Whether the values break one of 24's rules.
#[tactic(auto, unfolding(crate::specs::computed::Roll::badValues))]
fn bad_values(held: Held) -> bool
    ensures { result ≡ badValues held }
{
    match u16::try_from(held.number) {
        Ok(TokenKind::INT_LIT) => held.values > 2147483647,
        Ok(TokenKind::LONG_LIT) => held.values > 9223372036854775807,
        Ok(TokenKind::STR) => {
            let from = held.values & 0xFFFF_FFFF;
            let to = held.values >> 32;
            from < held.start || held.end < to || to < from
        }
        Ok(TokenKind::NEWLINE) => held.values > 1,
        _ => false,
    }
}

// Whether 24 is met at the record.
#[tactic(auto, unfolding(crate::specs::computed::Roll::isWrong))]
fn is_wrong(held: Held, previous: usize) -> bool
    ensures { result ≡ isWrong held previous }
{
    held.cut > 1 || held.end < held.start || (held.start as usize) < previous || bad_values(held)
}

// Whether the record is Eof, and not the last of the bytes left.
fn eof_followed(held: Held, left: usize) -> bool
    ensures { result ≡ eofFollowed held left }
{
    held.number == TokenKind::EOF as u64 && (held.length as usize) < left
}

/// The record at a cursor: 22, 23 and 24 in their order, else its token.
#[tactic(auto, using(crate::proofs::record::Laws::held_left), unfolding(crate::specs::computed::Roll::readAt, crate::specs::computed::Roll::stepHeld, crate::specs::computed::Roll::tokenOf, crate::specs::code::Record::kindOf))]
#[inline(always)] // so that a call that reads stored records has one frame
pub fn read_token(roll: &[u8], c: RollCursor) -> Result<Yielded, Refused>
    ensures value { stepOf result ≡ readAt roll.now c.at c.previous }
    ensures cursor { IfOk result (λ y. y.next.previous ≡ y.end) }
{
    let at = c.at;
    if roll.len() <= at {
        return Err(Refusal::Wrong.at(roll.len()));
    }
    let left = roll.len() - at;
    let held = token::form::read_record(&roll[at..], 0);
    if left < 4 || left < held.length as usize {
        return Err(Refusal::TooFew.at(at));
    }
    let Some(kind) = kind_of(held) else {
        return Err(Refusal::NoKind.at(at));
    };
    if is_wrong(held, c.previous) {
        return Err(Refusal::Wrong.at(at));
    }
    let next = at + held.length as usize;
    if eof_followed(held, left) {
        return Err(Refusal::Wrong.at(next));
    }
    Ok(Yielded {
        kind,
        start: held.start as usize,
        end: held.end as usize,
        cut: held.cut == 1,
        next: RollCursor {
            at: next,
            previous: held.end as usize,
        },
    })
}
