// The lines of a listing. RULES, "Listing": kind, start, end, cut and values, or `refused N at P`. Each function puts its text
// behind the one that it is given.
ghost use Rattle.std.specs.Prelude.{◌≡◌, ◌<◌, ◌≤◌, ◌∷◌, length, IfSome, IfNone};
ghost use Rattle.puts.specs.Puts.{Puts};
ghost use Rattle.token.specs.computed.Listing.{decimal, refusedAt};
ghost use Rattle.listing_text.specs.Lines.{lengthHere, headText, valuesText, lineText, recordLines};

use std::alloc::AllocError;
use token::form::{Held, read_record};
use token::kinds::TokenKind;
use words::read::two;

const INT_LIT: u64 = TokenKind::INT_LIT as u64;

const LONG_LIT: u64 = TokenKind::LONG_LIT as u64;

const STR: u64 = TokenKind::STR as u64;

const NEWLINE: u64 = TokenKind::NEWLINE as u64;

const HEAD_BYTES: usize = TokenKind::HEAD_LENGTH as usize;

// A number in base ten, as the listing's definition has it.
#[tactic(auto, using(crate::proofs::Decimals::decimal_written))]
pub fn put_number(text: &mut Vec<u8>, number: u64) -> Result<(), AllocError>
    ensures put { Puts text.old text.new result (decimal number) }
    ensures short { length (decimal number) ≤ 20 }
{
    puts::put_number(text, number)
}

// A space and a number.
#[tactic(auto, using(crate::proofs::Decimals::decimal_written))]
fn put_spaced(text: &mut Vec<u8>, number: u64) -> Result<(), AllocError>
    ensures { Puts text.old text.new result (0x20 ∷ decimal number) }
{
    puts::put_spaced(text, number)
}

// Kind, start, end and cut.
fn put_head(text: &mut Vec<u8>, held: Held) -> Result<(), AllocError>
    ensures { Puts text.old text.new result (headText held) }
{
    put_number(text, held.number)?;
    put_spaced(text, held.start)?;
    put_spaced(text, held.end)?;
    put_spaced(text, held.cut)
}

// The values: none, one or two. Of a string's two the first is in the lower four bytes.
fn put_values(text: &mut Vec<u8>, held: Held) -> Result<(), AllocError>
    ensures { Puts text.old text.new result (valuesText held) }
{
    match held.number {
        INT_LIT | LONG_LIT | NEWLINE => put_spaced(text, held.values),
        STR => {
            put_spaced(text, held.values % 0x1_0000_0000)?;
            put_spaced(text, held.values / 0x1_0000_0000)
        }
        _ => Ok(()),
    }
}

// One line.
fn put_line(text: &mut Vec<u8>, held: Held) -> Result<(), AllocError>
    ensures { Puts text.old text.new result (lineText held) }
{
    put_head(text, held)?;
    put_values(text, held)?;
    text.push(b'\n')?;
    Ok(())
}

// The length of the record at the start, where a whole one stands there.
#[tactic(auto, unfolding(crate::specs::Lines::lengthHere))]
fn record_length(bytes: &[u8]) -> Option<usize>
    ensures some { IfSome result (λ n. n ≡ lengthHere bytes.now) }
    ensures positive { IfSome result (λ n. 0 < n) }
    ensures within { IfSome result (λ n. n ≤ length bytes.now) }
    ensures none { IfNone result (lengthHere bytes.now ≡ 0) }
{
    let length = two(bytes, 0) as usize;
    if (HEAD_BYTES..=bytes.len()).contains(&length) {
        Some(length)
    } else {
        None
    }
}

/// Puts a line for each record behind a text, by its own length, up to the end or to where no whole record stands.
pub fn put_records(text: &mut Vec<u8>, records: &[u8]) -> Result<(), AllocError>
    ensures { Puts text.old text.new result (recordLines records.now) }
{
    let mut rest = records;
    while let Some(length) = record_length(rest) {
        put_line(text, read_record(rest, 0))?;
        rest = &rest[length..];
    }
    Ok(())
}

/// Puts `refused N at P` behind a text.
pub fn put_refused(text: &mut Vec<u8>, number: u64, place: u64) -> Result<(), AllocError>
    ensures { Puts text.old text.new result (refusedAt number place) }
{
    text.extend_from_slice(b"refused ")?;
    put_number(text, number)?;
    text.extend_from_slice(b" at ")?;
    put_number(text, place)?;
    text.push(b'\n')?;
    Ok(())
}
