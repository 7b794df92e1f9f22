// One record, stored and read back. RULES, "Record".
ghost use Rattle.std.specs.Prelude.{◌≡◌, false, ◌+◌, ◌-◌, ◌≤◌, length, take};
ghost use Rattle.std.proofs.lemmas.List.Edits.{sets};
ghost use Rattle.token.specs.paper.Records.{headLength, lineLength, strLength, intLength, longLength};
ghost use Rattle.token.specs.code.Form.{mostLength, formOf, plainForm, Known, headNumber, headBytes, byForm, valuesAt, heldAt, RecordForm};
ghost use Rattle.words.specs.Words.{le8};
ghost use Rattle.token.specs.code.Records.{storedIf};
ghost use Rattle.token.specs.declared.kinds.TokenKind.TheVariants as tk;

use crate::kinds::{Form, TokenKind, bit_of};
use words::read::{eight, four, one, two};
use words::write::{put4, put8};

// Length and kind as one number, which is stored at once.
pub fn head_of(length: u16, number: u16) -> u32
    ensures { result ≡ headNumber length number }
{
    length as u32 + 65536 * (number as u32)
}

// Length and kind, start, end and cut. This and the three that follow are compiled into each caller, where most of a form is known. Where it is stored
// and the token's places and cut go together in these four alone, and no fact is about all of them: a struct would be made for one call.
#[inline(always)]
#[tactic(auto, using(crate::proofs::form::Stores::put_head))]
fn put_head(out: &mut [u8], w: usize, head: u32, start: usize, end: usize, cut: bool)
    requires { w + headLength ≤ length out.old }
    ensures { out.new ≡ sets out.old w (headBytes head start end cut) }
{
    put4(out, w, head as usize);
    put4(out, w + 4, start);
    put4(out, w + 8, end);
    out[w + 12] = bit_of(cut);
}

// The values: as many bytes of them as the record's length has.
#[inline(always)]
#[tactic(auto, using(crate::proofs::form::Laws::record_stores))]
fn put_values(out: &mut [u8], w: usize, size: u16, values: u64)
    requires known { Known size }
    requires room { w + (size - headLength) ≤ length out.old }
    ensures { out.new ≡ sets out.old w (take (size - headLength) (le8 values)) }
{
    match size {
        TokenKind::NEWLINE_LENGTH => out[w] = values.to_le_bytes()[0],
        TokenKind::INT_LIT_LENGTH => put4(out, w, values as usize),
        TokenKind::LONG_LIT_LENGTH => put8(out, w, values),
        _ => {}
    }
}

/// A record by its form.
#[inline(always)]
#[tactic(auto, using(crate::proofs::form::Laws::record_stores))]
pub fn put_record(out: &mut [u8], w: usize, form: Form, start: usize, end: usize, cut: bool)
    requires known { Known form.length }
    requires room { w + form.length ≤ length out.old }
    ensures { out.new ≡ sets out.old w (byForm form start end cut) }
{
    put_head(out, w, head_of(form.length, form.number), start, end, cut);
    put_values(
        out,
        w + TokenKind::HEAD_LENGTH as usize,
        form.length,
        form.values,
    );
}

/// The same, where it fits.
#[inline(always)]
#[tactic(auto, using(crate::proofs::form::Shapes::fitting))]
pub fn put_if(out: &mut [u8], w: usize, form: Form, start: usize, end: usize, cut: bool)
    requires known { Known form.length }
    requires room { w + form.length ≤ 18446744073709551615 }
    ensures { out.new ≡ storedIf out.old w (byForm form start end cut) }
{
    if w + form.length as usize <= out.len() {
        put_record(out, w, form, start, end, cut);
    }
}

/// The same for one of the nine signs, by its length and kind as one number: made of its form, these cost an instruction more a sign.
#[tactic(auto, using(crate::proofs::form::Shapes::fitting))]
pub fn put_head_if(out: &mut [u8], w: usize, head: u32, start: usize, end: usize, cut: bool)
    requires { w + headLength ≤ 18446744073709551615 }
    ensures { out.new ≡ storedIf out.old w (headBytes head start end cut) }
{
    if w + TokenKind::HEAD_LENGTH as usize <= out.len() {
        put_head(out, w, head, start, end, cut);
    }
}

/// A record as it stands in bytes: its numbers need not be those of a kind.
#[derive(Clone, Copy, Debug, PartialEq, Eq)]
pub struct Held {
    pub number: u64,
    pub length: u64,
    pub values: u64,
    pub start: u64,
    pub end: u64,
    pub cut: u64,
}

const LINE_LENGTH: u64 = TokenKind::NEWLINE_LENGTH as u64;

const INT_LENGTH: u64 = TokenKind::INT_LIT_LENGTH as u64;

const LONG_LENGTH: u64 = TokenKind::LONG_LIT_LENGTH as u64;

// The values as one number: as many bytes of them as the record's length has.
#[tactic(auto, unfolding(crate::specs::code::Form::valuesAt))]
fn read_values(bytes: &[u8], at: usize, size: u64) -> u64
    requires { at + 8 ≤ 18446744073709551615 }
    ensures { result ≡ valuesAt bytes.now at size }
{
    match size {
        LINE_LENGTH => one(bytes, at),
        INT_LENGTH => four(bytes, at),
        LONG_LENGTH => eight(bytes, at),
        _ => 0,
    }
}

/// Every record is read here. Every byte is allowed: past the end a byte counts as 0. The second clause: what is stored is read back, and what is
/// read is stored again.
#[tactic(auto, using(crate::proofs::form::ReadBack::reads), unfolding(crate::specs::code::Form::heldAt))]
#[inline(always)] // so that a call that reads stored records has one frame
pub fn read_record(bytes: &[u8], at: usize) -> Held
    requires { at + mostLength ≤ 18446744073709551615 }
    ensures value { result ≡ heldAt bytes.now at }
    ensures record_form { RecordForm }
{
    let length = two(bytes, at);
    Held {
        number: two(bytes, at + 2),
        length,
        values: read_values(bytes, at + TokenKind::HEAD_LENGTH as usize, length),
        start: four(bytes, at + 4),
        end: four(bytes, at + 8),
        cut: one(bytes, at + 12),
    }
}
