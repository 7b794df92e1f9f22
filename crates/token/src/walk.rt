// One walk over a script, to its end or to what is refused: each piece is read where it stands, and each token's record is stored where it fits.
ghost use Rattle.std.specs.Prelude.{◌≡◌, IsTrue, IsFalse, not, ◌&&◌, ◌||◌, List, ℕ, ◌+◌, ◌≤◌, ◌<◌, ◌==◌, length, drop, slice_index, Ok, Err, IfOk, IfErr, IfSome, IfNone, IsErr};
ghost use Rattle.chars.specs.paper.Text.{from, idStart};
ghost use Rattle.token.specs.paper.Tests.{isAny, opSign, opensBlock, opensComment};
ghost use Rattle.token.specs.paper.Records.{mostBytes, headLength, lineLength, recordOf, valueNeed};
ghost use Rattle.token.specs.computed.Answer.{scan, scanNumber};
ghost use Rattle.token.specs.code.Records.{storedIf, measuredFrom, storedFrom, countedFrom, noneCounted, begun, eofAt};
ghost use Rattle.token.specs.code.Form.{byForm, plainForm};
ghost use Rattle.token.specs.code.ByteClass.{classAt, blankClass, digitClass, lfClass, crClass, tickClass, backtickClass, quoteClass, keywordClass, signKeywordClass, slashClass, wideClass, upToBlank, startsWord, asksMore, isSign, inRun, inWord};
ghost use Rattle.token.specs.code.Names.{hereOf, runTo, lowBefore};
ghost use Rattle.token.specs.code.Piece.{pieceOf};
ghost use Rattle.token.specs.code.Walk.{beginning, movedTo, tokenBehind, needAt, lineBehind, commentBehind, blockBehind, runGoesOn, wholeGoesOn, wholeRunGoesOn, nameNumber, operatorNumber, Good, Counted, Left, LeftAscii, LeftWhole, LeftTo, Prefixes, pastAscii, Refuses, Steps};

use crate::byte_class::Class;
use crate::charsym::lex_char_sym;
use crate::counts::{Counts, Need};
use crate::cursor::{Cursor, byte_at, skip_more};
use crate::digits::{digit_value, lex_number};
use crate::form::{put_head_if, put_if, put_record};
use crate::ident::{consume_backtick, consume_op_run, lex_ident, lex_op_run};
use crate::keyword::{run_number, word_number};
use crate::kinds::{Form, TokenKind};
use crate::names::{
    Here, ends_low, here_at, opens_with, run_end, wide_run_end, wide_word_end, word_end,
};
use crate::piece::Piece;
use crate::refusal::{Refusal, Refused};
use crate::string::{lex_plain_string, lex_prefixed_string};
use chars::text::look;

const HEAD: usize = TokenKind::HEAD_LENGTH as usize;

const LINE: usize = TokenKind::NEWLINE_LENGTH as usize;

const INT: usize = TokenKind::INT_LIT_LENGTH as usize;

const LONG: usize = TokenKind::LONG_LIT_LENGTH as usize;

/// Where a walk stands: its place with the class of its byte, and the record bytes so far. `line` and `mark` are what `bytes` was just behind the
/// last line end and the last comment: these came since the last token exactly if it is so still, so a token changes neither. `cut` is set, where the
/// token that ends the gap there has the cut.
#[derive(Clone, Copy, Debug, PartialEq, Eq)]
pub struct Stand {
    pub at: usize,
    pub class: Class,
    pub bytes: usize,
    pub line: usize,
    pub mark: usize,
    pub cut: bool,
}

impl Stand {
    /// At the start of a script. No line end and no comment came, for which one byte too many stands.
    fn start(s: &[u8]) -> Stand
        ensures { result ≡ beginning s.now }
    {
        Stand {
            at: Cursor::new().at,
            class: Class::at(s, 0),
            bytes: 0,
            line: 1,
            mark: 1,
            cut: false,
        }
    }
}

// The same, field by field: copied whole, padding would be kept too, and in `walk` each piece would take ten instructions more.
#[inline(always)]
fn by_field(x: Stand) -> Stand
    ensures { result ≡ x }
{
    Stand {
        at: x.at,
        class: x.class,
        bytes: x.bytes,
        line: x.line,
        mark: x.mark,
        cut: x.cut,
    }
}

// At another place, behind blanks.
fn at_place(x: Stand, to: Here) -> Stand
    ensures { result ≡ movedTo x to }
{
    Stand {
        at: to.at,
        class: to.class,
        ..x
    }
}

// Behind a token whose record has this length.
fn behind(x: Stand, end: Here, length: usize) -> Stand
    requires { x.bytes + length ≤ 18446744073709551615 }
    ensures { result ≡ tokenBehind x end length }
{
    Stand {
        at: end.at,
        class: end.class,
        bytes: x.bytes + length,
        cut: false,
        ..x
    }
}

// Behind a line end.
fn behind_line(s: &[u8], x: Stand, end: usize) -> Stand
    requires { x.bytes + lineLength ≤ 18446744073709551615 }
    ensures { result ≡ lineBehind s.now x end }
{
    Stand {
        at: end,
        class: Class::at(s, end),
        bytes: x.bytes + LINE,
        line: x.bytes + LINE,
        ..x
    }
}

// Behind a comment that no cut comes of; or past blanks behind it.
fn behind_comment(s: &[u8], x: Stand, end: usize) -> Stand
    ensures { result ≡ commentBehind s.now x end }
{
    Stand {
        at: end,
        class: Class::at(s, end),
        mark: x.bytes,
        ..x
    }
}

// Each of the following is a step: past what stands there, with its record stored where it fits. One that refuses answers by Err, one that leaves its
// piece to another reader by None, and neither stores or counts anything then. All ask for `short` and `good`, and those that are lent the counts for
// `counted`: no invariants of `Stand`, since they speak of the script and the counts, and a state that carried these with it would not stay in
// registers. What two or three have in common is one function; where they differ in what reads the piece, a common one would take the reader, its
// equation and its class, and be longer than they are.

// Past the blank that stands there and those behind it. Most blanks stand alone.
#[inline(always)]
fn blank_step(s: &[u8], x: Stand) -> Stand
    requires short { length s.now ≤ mostBytes }
    requires good { Good s.now x }
    requires blank { IsTrue (x.class.number == blankClass) }
    ensures on { (c : Counts) (out : List ℕ) → Counted x c → Steps s.now x c out result c out }
    ensures further { x.at < result.at }
{
    let class = Class::at(s, x.at + 1);
    if class != Class::BLANK {
        return at_place(
            x,
            Here {
                at: x.at + 1,
                class,
            },
        );
    }
    let c = skip_more(s, x.at + 2);
    at_place(x, here_at(s, c.at))
}

// One of the nine signs.
#[inline(always)]
fn sign_step(out: &mut [u8], s: &[u8], x: Stand) -> Stand
    requires short { length s.now ≤ mostBytes }
    requires good { Good s.now x }
    requires sign { IsTrue (upToBlank x.class.number) }
    requires no_blank { IsFalse (x.class.number == blankClass) }
    ensures on { (c : Counts) → Counted x c → Steps s.now x c out.old result c out.new }
    ensures further { result.at ≡ x.at + 1 }
{
    put_head_if(out, x.bytes, x.class.sign_head(), x.at, x.at + 1, x.cut);
    behind(x, here_at(s, x.at + 1), HEAD)
}

// An LF.
#[inline(always)]
fn line_step(out: &mut [u8], s: &[u8], counts: &mut Counts, x: Stand) -> Stand
    requires short { length s.now ≤ mostBytes }
    requires good { Good s.now x }
    requires counted { Counted x counts.old }
    requires lf { IsTrue (x.class.number == lfClass) }
    ensures on { Steps s.now x counts.old out.old result counts.new out.new }
    ensures further { result.at ≡ x.at + 1 }
{
    let kind = TokenKind::Newline(x.mark == x.bytes);
    put_if(out, x.bytes, kind.form(), x.at, x.at + 1, false);
    counts.add(kind);
    behind_line(s, x, x.at + 1)
}

// A CR: a line end before an LF, else refused.
fn return_step(out: &mut [u8], s: &[u8], counts: &mut Counts, x: Stand) -> Result<Stand, Refused>
    requires short { length s.now ≤ mostBytes }
    requires good { Good s.now x }
    requires counted { Counted x counts.old }
    requires cr { IsTrue (x.class.number == crClass) }
    ensures on { IfOk result (λ y. Steps s.now x counts.old out.old y counts.new out.new) }
    ensures further { IfOk result (λ y. x.at < y.at) }
    ensures refused { IfErr result (λ e. Refuses s.now x counts.old out.old e) }
    ensures kept { IfErr result (λ e. out.new ≡ out.old) }
    ensures uncounted { IfErr result (λ e. counts.new ≡ counts.old) }
    ensures alone { IfErr result (λ e. IsFalse (slice_index s.now (x.at + 1) == 0x0A)) }
{
    if byte_at(s, x.at + 1) != b'\n' {
        return Err(Refusal::LoneCr.at(x.at));
    }
    let kind = TokenKind::Newline(x.mark == x.bytes);
    put_if(out, x.bytes, kind.form(), x.at, x.at + 2, false);
    counts.add(kind);
    Ok(behind_line(s, x, x.at + 2))
}

// Behind a block comment and the blanks after it, where a line end of its gap came: the cut comes of it, unless a line end follows.
fn behind_block(s: &[u8], x: Stand, end: usize) -> Stand
    ensures { result ≡ blockBehind s.now x end }
{
    let y = behind_comment(s, x, end);
    Stand {
        cut: x.cut || !y.class.in_line_end(),
        ..y
    }
}

// A block comment, and where a line end of its gap came those that follow it, each behind blanks at most.
fn block_step(s: &[u8], x: Stand) -> Result<Stand, Refused>
    requires short { length s.now ≤ mostBytes }
    requires good { Good s.now x }
    requires opened { IsTrue (opensBlock (from s.now x.at)) }
    ensures on { IfOk result (λ y. (c : Counts) (out : List ℕ) → Counted x c → Steps s.now x c out y c out) }
    ensures further { IfOk result (λ y. x.at < y.at) }
    ensures refused { IfErr result (λ e. (c : Counts) (out : List ℕ) → Refuses s.now x c out e) }
{
    let closed = Cursor { at: x.at }.consume_block_comment(s);
    let Some(end) = closed else {
        return Err(Refusal::OpenComment.at(x.at));
    };
    if x.line != x.bytes {
        return Ok(behind_comment(s, x, end.at));
    }
    let c = end.skip_blanks(s);
    let mut y = behind_block(s, x, c.at);
    // A step is one more. Behind the first the cut is set, and then each would go through all of `walk`.
    'more: while y.class == Class::SLASH && byte_at(s, y.at + 1) == b'*' {
        let closed = Cursor { at: y.at }.consume_block_comment(s);
        let Some(end) = closed else {
            return Err(Refusal::OpenComment.at(y.at));
        };
        let c = end.skip_blanks(s);
        y = behind_block(s, y, c.at);
    }
    Ok(y)
}

// A comment.
fn comment_step(s: &[u8], x: Stand) -> Result<Stand, Refused>
    requires short { length s.now ≤ mostBytes }
    requires good { Good s.now x }
    requires opened { IsTrue (opensComment (from s.now x.at)) }
    ensures on { IfOk result (λ y. (c : Counts) (out : List ℕ) → Counted x c → Steps s.now x c out y c out) }
    ensures further { IfOk result (λ y. x.at < y.at) }
    ensures refused { IfErr result (λ e. (c : Counts) (out : List ℕ) → Refuses s.now x c out e) }
{
    if byte_at(s, x.at + 1) == b'/' {
        let end = Cursor { at: x.at }.consume_line_comment(s);
        return Ok(behind_comment(s, x, end.at));
    }
    block_step(s, x)
}

// The kind's number of the operator from `at` to `end`: before a comment it is no keyword.
#[tactic(auto, unfolding(crate::specs::code::Walk::operatorNumber))]
fn operator_number(s: &[u8], class: Class, at: usize, end: Here) -> u16
    requires { IsTrue (class.number == signKeywordClass) → LeftTo s.now at end.at }
    ensures { result ≡ operatorNumber s.now class.number at end }
{
    if class != Class::SIGN_KEYWORD || end.class == Class::SLASH {
        return TokenKind::OP_ID;
    }
    run_number(s, at, end.at)
}

// Stores an operator's record, where it fits: its keyword is looked for there only.
#[inline(always)]
fn put_run_if(out: &mut [u8], s: &[u8], x: Stand, end: Here)
    requires left { IsTrue (x.class.number == signKeywordClass) → LeftTo s.now x.at end.at }
    requires room { x.bytes + headLength ≤ 18446744073709551615 }
    ensures { out.new ≡ storedIf out.old x.bytes (byForm (plainForm (operatorNumber s.now x.class.number x.at end)) x.at end.at x.cut) }
{
    if x.bytes + HEAD <= out.len() {
        let form = Form::plain(operator_number(s, x.class, x.at, end));
        put_record(out, x.bytes, form, x.at, end.at, x.cut);
    }
}

// A number of one digit, as many are.
fn digit_step(out: &mut [u8], s: &[u8], counts: &mut Counts, x: Stand, end: Here) -> Stand
    requires short { length s.now ≤ mostBytes }
    requires good { Good s.now x }
    requires counted { Counted x counts.old }
    requires digit { IsTrue (x.class.number == digitClass) }
    requires end_is { end ≡ hereOf s.now (x.at + 1) }
    requires alone { IsFalse (inWord end.class.number) }
    ensures on { Steps s.now x counts.old out.old result counts.new out.new }
    ensures further { result.at ≡ x.at + 1 }
{
    let kind = TokenKind::IntLit(digit_value(s, x.at) as u32);
    put_if(out, x.bytes, kind.form(), x.at, end.at, x.cut);
    counts.add(kind);
    behind(x, end, INT)
}

// A number; None, where it is refused.
fn number_step(out: &mut [u8], s: &[u8], counts: &mut Counts, x: Stand) -> Option<Stand>
    requires short { length s.now ≤ mostBytes }
    requires good { Good s.now x }
    requires counted { Counted x counts.old }
    requires digit { IsTrue (x.class.number == digitClass) }
    ensures on { IfSome result (λ y. Steps s.now x counts.old out.old y counts.new out.new) }
    ensures further { IfSome result (λ y. x.at < y.at) }
    ensures kept { IfNone result (out.new ≡ out.old) }
    ensures uncounted { IfNone result (counts.new ≡ counts.old) }
    ensures none { IfNone result (IsErr (pieceOf (length s.now) (scanNumber (from s.now x.at)))) }
{
    let next = here_at(s, x.at + 1);
    if !next.class.in_word() {
        return Some(digit_step(out, s, counts, x, next));
    }
    let piece = lex_number(s, Cursor { at: x.at });
    let Ok((kind, end)) = piece else {
        return None;
    };
    match kind {
        TokenKind::IntLit(v) => {
            let form = Form::int(v as u64);
            put_if(out, x.bytes, form, x.at, end.at, x.cut);
            counts.add(kind);
            Some(behind(x, here_at(s, end.at), INT))
        }
        TokenKind::LongLit(v) => {
            let form = Form::long(v);
            put_if(out, x.bytes, form, x.at, end.at, x.cut);
            counts.add(kind);
            Some(behind(x, here_at(s, end.at), LONG))
        }
        _ => None,
    }
}

// The kind's number of the word from `at` to `end`, whose first byte has this class.
#[tactic(auto, unfolding(crate::specs::code::Walk::nameNumber))]
fn name_number(s: &[u8], class: Class, at: usize, end: usize) -> u16
    requires { IsTrue (class.number == keywordClass) → LeftTo s.now at end }
    ensures { result ≡ nameNumber s.now class.number at end }
{
    if class == Class::KEYWORD {
        return word_number(s, at, end);
    }
    TokenKind::IDENT
}

// Stores a word's record, where it fits: its keyword is looked for there only.
#[inline(always)]
fn put_word_if(out: &mut [u8], s: &[u8], x: Stand, end: usize)
    requires left { IsTrue (x.class.number == keywordClass) → LeftTo s.now x.at end }
    requires room { x.bytes + headLength ≤ 18446744073709551615 }
    ensures { out.new ≡ storedIf out.old x.bytes (byForm (plainForm (nameNumber s.now x.class.number x.at end)) x.at end x.cut) }
{
    if x.bytes + HEAD <= out.len() {
        let form = Form::plain(name_number(s, x.class, x.at, end));
        put_record(out, x.bytes, form, x.at, end, x.cut);
    }
}

// A token that was read there: its record is stored, where it fits, or it is refused.
#[inline(always)]
fn put_piece(
    out: &mut [u8],
    s: &[u8],
    counts: &mut Counts,
    x: Stand,
    piece: Piece,
) -> Result<Stand, Refused>
    requires short { length s.now ≤ mostBytes }
    requires good { Good s.now x }
    requires counted { Counted x counts.old }
    requires within { x.at < length s.now }
    requires no_gap { IsFalse (isAny " \t\n\r" (from s.now x.at)) }
    requires no_comment { IsFalse (opensComment (from s.now x.at)) }
    requires piece_is { piece ≡ pieceOf (length s.now) (scan (length s.now) (from s.now x.at)) }
    ensures on { IfOk result (λ y. Steps s.now x counts.old out.old y counts.new out.new) }
    ensures further { IfOk result (λ y. x.at < y.at) }
    ensures refused { IfErr result (λ e. Refuses s.now x counts.old out.old e) }
    ensures kept { IfErr result (λ e. out.new ≡ out.old) }
    ensures uncounted { IfErr result (λ e. counts.new ≡ counts.old) }
{
    // `let else` is one of the forms that were asked for; `?` would do as much.
    let Ok((kind, end)) = piece else {
        return Err(piece.unwrap_err());
    };
    counts.add(kind); // behind the store it took 2 per cent more where a name prefixes a string
    let form = kind.form();
    put_if(out, x.bytes, form, x.at, end.at, x.cut);
    Ok(behind(x, here_at(s, end.at), form.length as usize))
}

// A number, with its refusal.
#[inline(always)]
fn digits_step(out: &mut [u8], s: &[u8], counts: &mut Counts, x: Stand) -> Result<Stand, Refused>
    requires short { length s.now ≤ mostBytes }
    requires good { Good s.now x }
    requires counted { Counted x counts.old }
    requires digit { IsTrue (x.class.number == digitClass) }
    ensures on { IfOk result (λ y. Steps s.now x counts.old out.old y counts.new out.new) }
    ensures further { IfOk result (λ y. x.at < y.at) }
    ensures refused { IfErr result (λ e. Refuses s.now x counts.old out.old e) }
    ensures kept { IfErr result (λ e. out.new ≡ out.old) }
    ensures uncounted { IfErr result (λ e. counts.new ≡ counts.old) }
{
    let piece = lex_number(s, Cursor { at: x.at });
    put_piece(out, s, counts, x, piece)
}

// A character or a symbol.
#[inline(always)]
fn char_sym_step(out: &mut [u8], s: &[u8], counts: &mut Counts, x: Stand) -> Result<Stand, Refused>
    requires short { length s.now ≤ mostBytes }
    requires good { Good s.now x }
    requires counted { Counted x counts.old }
    requires tick { IsTrue (x.class.number == tickClass) }
    ensures on { IfOk result (λ y. Steps s.now x counts.old out.old y counts.new out.new) }
    ensures further { IfOk result (λ y. x.at < y.at) }
    ensures refused { IfErr result (λ e. Refuses s.now x counts.old out.old e) }
    ensures kept { IfErr result (λ e. out.new ≡ out.old) }
    ensures uncounted { IfErr result (λ e. counts.new ≡ counts.old) }
{
    let piece = lex_char_sym(s, Cursor { at: x.at });
    put_piece(out, s, counts, x, piece)
}

// An operator, whose first sign ends at `next`.
#[inline(always)]
fn run_step(
    out: &mut [u8],
    s: &[u8],
    counts: &mut Counts,
    x: Stand,
    next: Cursor,
) -> Result<Stand, Refused>
    requires short { length s.now ≤ mostBytes }
    requires good { Good s.now x }
    requires counted { Counted x counts.old }
    requires sign { IsTrue (opSign (from s.now x.at)) }
    requires no_comment { IsFalse (opensComment (from s.now x.at)) }
    requires next_within { next.at ≤ length s.now }
    requires next_same { from s.now next.at ≡ drop 1 (from s.now x.at) }
    ensures on { IfOk result (λ y. Steps s.now x counts.old out.old y counts.new out.new) }
    ensures further { IfOk result (λ y. x.at < y.at) }
    ensures refused { IfErr result (λ e. Refuses s.now x counts.old out.old e) }
    ensures kept { IfErr result (λ e. out.new ≡ out.old) }
    ensures uncounted { IfErr result (λ e. counts.new ≡ counts.old) }
{
    let piece = lex_op_run(s, Cursor { at: x.at }, x.class, next);
    put_piece(out, s, counts, x, piece)
}

// An operator that begins with a sign of ASCII.
#[inline(always)]
fn ascii_run_step(out: &mut [u8], s: &[u8], counts: &mut Counts, x: Stand) -> Result<Stand, Refused>
    requires short { length s.now ≤ mostBytes }
    requires good { Good s.now x }
    requires counted { Counted x counts.old }
    requires sign { IsTrue (isSign x.class.number) }
    requires no_comment { IsFalse (opensComment (from s.now x.at)) }
    ensures on { IfOk result (λ y. Steps s.now x counts.old out.old y counts.new out.new) }
    ensures further { IfOk result (λ y. x.at < y.at) }
    ensures refused { IfErr result (λ e. Refuses s.now x counts.old out.old e) }
    ensures kept { IfErr result (λ e. out.new ≡ out.old) }
    ensures uncounted { IfErr result (λ e. counts.new ≡ counts.old) }
{
    run_step(out, s, counts, x, Cursor { at: x.at + 1 })
}

// What begins with a `/`: a comment, or an operator.
#[inline(always)]
fn slash_step(out: &mut [u8], s: &[u8], counts: &mut Counts, x: Stand) -> Result<Stand, Refused>
    requires short { length s.now ≤ mostBytes }
    requires good { Good s.now x }
    requires counted { Counted x counts.old }
    requires slash { IsTrue (x.class.number == slashClass) }
    ensures on { IfOk result (λ y. Steps s.now x counts.old out.old y counts.new out.new) }
    ensures further { IfOk result (λ y. x.at < y.at) }
    ensures refused { IfErr result (λ e. Refuses s.now x counts.old out.old e) }
    ensures kept { IfErr result (λ e. out.new ≡ out.old) }
    ensures uncounted { IfErr result (λ e. counts.new ≡ counts.old) }
{
    if opens_with(byte_at(s, x.at + 1)) {
        return comment_step(s, x);
    }
    ascii_run_step(out, s, counts, x)
}

// An identifier, a keyword, or the string that an identifier prefixes. Its first character ends at `next`.
#[inline(always)]
fn name_step(
    out: &mut [u8],
    s: &[u8],
    counts: &mut Counts,
    x: Stand,
    next: Cursor,
) -> Result<Stand, Refused>
    requires short { length s.now ≤ mostBytes }
    requires good { Good s.now x }
    requires counted { Counted x counts.old }
    requires starts { IsTrue (idStart (from s.now x.at)) }
    requires next_within { next.at ≤ length s.now }
    requires next_same { from s.now next.at ≡ drop 1 (from s.now x.at) }
    ensures on { IfOk result (λ y. Steps s.now x counts.old out.old y counts.new out.new) }
    ensures further { IfOk result (λ y. x.at < y.at) }
    ensures refused { IfErr result (λ e. Refuses s.now x counts.old out.old e) }
    ensures kept { IfErr result (λ e. out.new ≡ out.old) }
    ensures uncounted { IfErr result (λ e. counts.new ≡ counts.old) }
{
    let piece = lex_ident(s, Cursor { at: x.at }, x.class, next);
    put_piece(out, s, counts, x, piece)
}

// The same, where it begins with a letter, `$` or `_` of ASCII.
#[inline(always)]
fn ascii_name_step(
    out: &mut [u8],
    s: &[u8],
    counts: &mut Counts,
    x: Stand,
) -> Result<Stand, Refused>
    requires short { length s.now ≤ mostBytes }
    requires good { Good s.now x }
    requires counted { Counted x counts.old }
    requires no_sign { IsFalse (upToBlank x.class.number) }
    requires begins { IsTrue (startsWord x.class.number) }
    ensures on { IfOk result (λ y. Steps s.now x counts.old out.old y counts.new out.new) }
    ensures further { IfOk result (λ y. x.at < y.at) }
    ensures refused { IfErr result (λ e. Refuses s.now x counts.old out.old e) }
    ensures kept { IfErr result (λ e. out.new ≡ out.old) }
    ensures uncounted { IfErr result (λ e. counts.new ≡ counts.old) }
{
    name_step(out, s, counts, x, Cursor { at: x.at + 1 })
}

// What begins with a character past ASCII: an operator, an identifier, or nothing.
fn wide_step(out: &mut [u8], s: &[u8], counts: &mut Counts, x: Stand) -> Result<Stand, Refused>
    requires short { length s.now ≤ mostBytes }
    requires good { Good s.now x }
    requires counted { Counted x counts.old }
    requires wide { IsTrue (x.class.number == wideClass) }
    ensures on { IfOk result (λ y. Steps s.now x counts.old out.old y counts.new out.new) }
    ensures further { IfOk result (λ y. x.at < y.at) }
    ensures refused { IfErr result (λ e. Refuses s.now x counts.old out.old e) }
    ensures kept { IfErr result (λ e. out.new ≡ out.old) }
    ensures uncounted { IfErr result (λ e. counts.new ≡ counts.old) }
{
    let c = Cursor { at: x.at };
    let here = look(s, x.at);
    if here.classes.op_sign {
        return run_step(out, s, counts, x, c.step(s));
    }
    if here.classes.id_start {
        let next = Cursor {
            at: c.at + here.width,
        };
        return name_step(out, s, counts, x, next);
    }
    Err(Refusal::NoPiece.at(x.at))
}

// A plain string.
#[inline(always)]
fn string_step(out: &mut [u8], s: &[u8], counts: &mut Counts, x: Stand) -> Result<Stand, Refused>
    requires short { length s.now ≤ mostBytes }
    requires good { Good s.now x }
    requires counted { Counted x counts.old }
    requires quote { IsTrue (x.class.number == quoteClass) }
    ensures on { IfOk result (λ y. Steps s.now x counts.old out.old y counts.new out.new) }
    ensures further { IfOk result (λ y. x.at < y.at) }
    ensures refused { IfErr result (λ e. Refuses s.now x counts.old out.old e) }
    ensures kept { IfErr result (λ e. out.new ≡ out.old) }
    ensures uncounted { IfErr result (λ e. counts.new ≡ counts.old) }
{
    let piece = lex_plain_string(s, Cursor { at: x.at });
    put_piece(out, s, counts, x, piece)
}

// A string that the name up to a place prefixes.
#[inline(always)]
fn prefixed_step(
    out: &mut [u8],
    s: &[u8],
    counts: &mut Counts,
    x: Stand,
    end: usize,
) -> Result<Stand, Refused>
    requires short { length s.now ≤ mostBytes }
    requires good { Good s.now x }
    requires counted { Counted x counts.old }
    requires within { x.at < length s.now }
    requires no_gap { IsFalse (isAny " \t\n\r" (from s.now x.at)) }
    requires no_comment { IsFalse (opensComment (from s.now x.at)) }
    requires prefixes { Prefixes s.now x.at end }
    ensures on { IfOk result (λ y. Steps s.now x counts.old out.old y counts.new out.new) }
    ensures further { IfOk result (λ y. x.at < y.at) }
    ensures refused { IfErr result (λ e. Refuses s.now x counts.old out.old e) }
    ensures kept { IfErr result (λ e. out.new ≡ out.old) }
    ensures uncounted { IfErr result (λ e. counts.new ≡ counts.old) }
{
    let piece = lex_prefixed_string(s, x.at, Cursor { at: end });
    put_piece(out, s, counts, x, piece)
}

// A backtick, or the string that it prefixes. Each is stored for itself: joined in one `Piece`, they are slower.
#[inline(always)]
fn backtick_step(out: &mut [u8], s: &[u8], counts: &mut Counts, x: Stand) -> Result<Stand, Refused>
    requires short { length s.now ≤ mostBytes }
    requires good { Good s.now x }
    requires counted { Counted x counts.old }
    requires backtick { IsTrue (x.class.number == backtickClass) }
    ensures on { IfOk result (λ y. Steps s.now x counts.old out.old y counts.new out.new) }
    ensures further { IfOk result (λ y. x.at < y.at) }
    ensures refused { IfErr result (λ e. Refuses s.now x counts.old out.old e) }
    ensures kept { IfErr result (λ e. out.new ≡ out.old) }
    ensures uncounted { IfErr result (λ e. counts.new ≡ counts.old) }
{
    let c = consume_backtick(s, Cursor { at: x.at })?;
    let end = here_at(s, c.at);
    if end.class == Class::QUOTE {
        return prefixed_step(out, s, counts, x, end.at);
    }
    put_if(
        out,
        x.bytes,
        Form::plain(TokenKind::BACKTICK_ID),
        x.at,
        end.at,
        x.cut,
    );
    Ok(behind(x, end, HEAD))
}

// May what stands behind a word make more of it? A sign does only where an underscore came last.
fn goes_on(s: &[u8], start: usize, end: Here) -> bool
    requires some { start < end.at }
    requires within { end.at ≤ length s.now }
    ensures { result ≡ (asksMore end.class.number && (not (isSign end.class.number) || lowBefore s.now start end.at)) }
{
    end.class.asks_more() && (!end.class.is_op() || ends_low(s, start, end.at))
}

// May what stands behind a run of signs make more of it? A `/` does not, where a comment begins with it.
fn run_goes_on(s: &[u8], end: Here) -> bool
    requires here { end ≡ hereOf s.now end.at }
    requires within { end.at ≤ length s.now }
    ensures { result ≡ runGoesOn s.now end.at }
{
    end.class.in_operator() && !(end.class == Class::SLASH && opens_with(byte_at(s, end.at + 1)))
}

// Past blanks, signs, LFs, and words and runs of operator signs of ASCII that nothing behind them makes more of, as most pieces are. Handed back with the
// state: where the ASCII of the word or the run ends that is left, if one is. Each turn of `walk_words` and of `wide_words` begins with it: when
// `wide_words` read ASCII in its own loop, each word there took a call, for which the state went to memory. With `WIDE_SOON` a character past ASCII is
// asked for before a run; the answers are the same.
#[inline(always)]
fn ascii_words<const WIDE_SOON: bool>(
    out: &mut [u8],
    s: &[u8],
    counts: &mut Counts,
    start: Stand,
) -> (Stand, Here)
    requires short { length s.now ≤ mostBytes }
    requires good { Good s.now start }
    requires counted { Counted start counts.old }
    ensures on { Steps s.now start counts.old out.old result.0 counts.new out.new }
    ensures further { start.at ≤ result.0.at }
    ensures left { LeftAscii s.now result.0 }
    ensures word { IsTrue (startsWord result.0.class.number) → result.1 ≡ hereOf s.now (runTo inWord s.now (result.0.at + 1)) }
    ensures run { IsTrue (inRun result.0.class.number) → result.1 ≡ hereOf s.now (runTo inRun s.now (result.0.at + 1)) }
{
    let mut x = start;
    // A step is a piece, and what it makes of the state.
    loop {
        if x.class == Class::BLANK {
            x = blank_step(s, x);
        } else if x.class.is_sign() {
            x = sign_step(out, s, x);
        } else if x.class.starts_word() {
            let end = word_end(s, x.at + 1);
            if goes_on(s, x.at, end) {
                return (x, end);
            }
            put_word_if(out, s, x, end.at);
            x = behind(x, end, HEAD);
        } else if x.class == Class::LF {
            x = line_step(out, s, counts, x);
        } else if WIDE_SOON && x.class == Class::WIDE {
            // Neither a word nor a run is left.
            return (
                x,
                Here {
                    at: x.at,
                    class: x.class,
                },
            );
        } else if x.class.in_run() {
            let end = run_end(s, x.at + 1);
            if run_goes_on(s, end) {
                return (x, end);
            }
            put_run_if(out, s, x, end);
            x = behind(x, end, HEAD);
        } else {
            // The same.
            return (
                x,
                Here {
                    at: x.at,
                    class: x.class,
                },
            );
        }
    }
}

// As far as blanks, signs, words, line ends, runs of operator signs and numbers of ASCII stand there of which no byte behind them makes more, as most
// pieces are; a run that a `/` goes on with is read to its end, past ASCII too. Err, where a character past ASCII follows the word or the run that
// stands there, and may make more of it.
fn walk_words(out: &mut [u8], s: &[u8], counts: &mut Counts, start: Stand) -> Result<Stand, Stand>
    requires short { length s.now ≤ mostBytes }
    requires good { Good s.now start }
    requires counted { Counted start counts.old }
    ensures on { IfOk result (λ x. Steps s.now start counts.old out.old x counts.new out.new) }
    ensures left { IfOk result (λ x. Left s.now x) }
    ensures ascii { IfOk result (λ x. IsFalse (pastAscii s.now x)) }
    ensures on_to_wide { IfErr result (λ x. Steps s.now start counts.old out.old x counts.new out.new) }
    ensures wide { IfErr result (λ x. IsTrue (pastAscii s.now x)) }
{
    let mut x = start;
    // A step is the pieces that `ascii_words` passes and the one behind them, and what they make of the state.
    loop {
        let (y, ascii_end) = ascii_words::<false>(out, s, counts, x);
        x = y;
        if x.class.starts_word() {
            if ascii_end.class == Class::WIDE {
                return Err(x);
            }
            return Ok(x);
        } else if x.class.in_run() {
            if ascii_end.class == Class::WIDE {
                return Err(x);
            }
            let c = consume_op_run(
                s,
                Cursor {
                    at: ascii_end.at + 1,
                },
            );
            let past = here_at(s, c.at);
            put_run_if(out, s, x, past);
            x = behind(x, past, HEAD);
        } else if x.class == Class::CR {
            let Ok(y) = return_step(out, s, counts, x) else {
                return Ok(x);
            };
            x = y;
        } else if x.class == Class::DIGIT {
            let Some(y) = number_step(out, s, counts, x) else {
                return Ok(x);
            };
            x = y;
        } else {
            return Ok(x);
        }
    }
}

// May what stands behind a word with all its characters make more of it?
fn whole_goes_on(s: &[u8], start: usize, end: Here) -> bool
    requires some { start < end.at }
    requires within { end.at ≤ length s.now }
    ensures { result ≡ wholeGoesOn s.now start end }
{
    end.class.asks_more() && (end.class == Class::QUOTE || ends_low(s, start, end.at))
}

// May it of a run of signs?
fn whole_run_goes_on(s: &[u8], end: Here) -> bool
    requires { end.at ≤ length s.now }
    ensures { result ≡ wholeRunGoesOn s.now end }
{
    end.class == Class::SLASH && !opens_with(byte_at(s, end.at + 1))
}

// As `walk_words`, but of all characters. It leaves numbers and lines that a CR ends, since their steps, called from two loops, would not be compiled in,
// and runs that a `/` goes on with, which take a call.
fn wide_words(out: &mut [u8], s: &[u8], counts: &mut Counts, start: Stand) -> Stand
    requires short { length s.now ≤ mostBytes }
    requires good { Good s.now start }
    requires counted { Counted start counts.old }
    ensures on { Steps s.now start counts.old out.old result counts.new out.new }
    ensures left { LeftWhole s.now result }
{
    let mut x = start;
    // A step is the pieces that `ascii_words` passes and the one behind them, and what they make of the state.
    loop {
        let (y, ascii_end) = ascii_words::<true>(out, s, counts, x);
        x = y;
        if x.class == Class::WIDE {
            let here = look(s, x.at);
            let next = x.at + here.width;
            if here.classes.id_start {
                let end = wide_word_end(s, next);
                if whole_goes_on(s, x.at, end) {
                    return x;
                }
                put_word_if(out, s, x, end.at);
                x = behind(x, end, HEAD);
            } else if here.classes.op_sign {
                let end = wide_run_end(s, next);
                if whole_run_goes_on(s, end) {
                    return x;
                }
                put_run_if(out, s, x, end);
                x = behind(x, end, HEAD);
            } else {
                return x;
            }
        } else if x.class.starts_word() {
            let end = wide_word_end(s, ascii_end.at);
            if whole_goes_on(s, x.at, end) {
                return x;
            }
            put_word_if(out, s, x, end.at);
            x = behind(x, end, HEAD);
        } else if x.class.in_run() {
            let end = wide_run_end(s, ascii_end.at);
            if whole_run_goes_on(s, end) {
                return x;
            }
            put_run_if(out, s, x, end);
            x = behind(x, end, HEAD);
        } else {
            return x;
        }
    }
}

// What begins there, where that or what it goes on with is past ASCII, by its first byte.
fn whole_step(out: &mut [u8], s: &[u8], counts: &mut Counts, x: Stand) -> Result<Stand, Refused>
    requires short { length s.now ≤ mostBytes }
    requires good { Good s.now x }
    requires counted { Counted x counts.old }
    requires begins { IsTrue (x.class.number == wideClass || pastAscii s.now x) }
    ensures on { IfOk result (λ y. Steps s.now x counts.old out.old y counts.new out.new) }
    ensures further { IfOk result (λ y. x.at < y.at) }
    ensures refused { IfErr result (λ e. Refuses s.now x counts.old out.old e) }
    ensures kept { IfErr result (λ e. out.new ≡ out.old) }
    ensures uncounted { IfErr result (λ e. counts.new ≡ counts.old) }
{
    if x.class == Class::WIDE {
        return wide_step(out, s, counts, x);
    }
    if x.class.starts_word() {
        return ascii_name_step(out, s, counts, x);
    }
    ascii_run_step(out, s, counts, x)
}

// The same, with all pieces of the kinds of `wide_words` that stand there, while no cut is set.
#[inline(always)]
fn past_ascii_step(
    out: &mut [u8],
    s: &[u8],
    counts: &mut Counts,
    x: Stand,
) -> Result<Stand, Refused>
    requires short { length s.now ≤ mostBytes }
    requires good { Good s.now x }
    requires counted { Counted x counts.old }
    requires begins { IsTrue (x.class.number == wideClass || pastAscii s.now x) }
    ensures on { IfOk result (λ y. Steps s.now x counts.old out.old y counts.new out.new) }
    ensures further { IfOk result (λ y. x.at < y.at) }
    ensures refused { IfErr result (λ e. Refuses s.now x counts.old out.old e) }
    ensures kept { IfErr result (λ e. out.new ≡ out.old) }
    ensures uncounted { IfErr result (λ e. counts.new ≡ counts.old) }
{
    if !x.cut {
        let y = wide_words(out, s, counts, x);
        if y.at != x.at {
            return Ok(y);
        }
    }
    whole_step(out, s, counts, x)
}

// The end of script: its record is stored where it fits. Tokens were not counted: every record has one head, so they are the bytes that are no values,
// divided by a head's length.
#[tactic(auto, using(crate::proofs::records::Ends::sizes))]
fn finish(out: &mut [u8], counts: Counts, x: Stand) -> Need
    requires room { x.bytes + headLength ≤ 18446744073709551615 }
    requires values_fit { valueNeed counts ≤ x.bytes }
    ensures value { result ≡ needAt (x.bytes + headLength) counts }
    ensures out_after { out.new ≡ storedIf out.old x.bytes (recordOf (eofAt x.at x.cut)) }
{
    put_if(out, x.bytes, Form::plain(TokenKind::EOF), x.at, x.at, x.cut);
    let bytes = x.bytes + HEAD;
    Need {
        tokens: (bytes - counts.value_bytes()) / HEAD,
        bytes,
        counts,
    }
}

/// From the script's start to its end, or to what is refused: what the records need. While no cut is set, as nearly always, words and all that is as
/// short go in loops of their own. The counts are lent, and begin at none: in memory, one that does not change costs nothing.
pub fn walk(out: &mut [u8], s: &[u8], counts: &mut Counts) -> Result<Need, Refused>
    requires short { length s.now ≤ mostBytes }
    requires begins { counts.old ≡ noneCounted }
    ensures needs { IfOk result (λ need. measuredFrom s.now begun ≡ Ok need) }
    ensures refused { IfErr result (λ e. measuredFrom s.now begun ≡ Err e) }
    ensures out_after { out.new ≡ storedFrom s.now begun out.old }
    ensures counts_after { counts.new ≡ countedFrom s.now begun }
{
    // Made here and not handed over, so that the compiler knows that no cut is set.
    let mut x = Stand::start(s);
    // The same steps, of every piece, by the class of its first byte.
    loop {
        // Past ASCII is also what goes on so.
        let mut kind = x.class;
        if !x.cut {
            match walk_words(out, s, counts, x) {
                Ok(y) => {
                    x = by_field(y);
                    kind = x.class;
                }
                Err(y) => {
                    x = by_field(y);
                    kind = Class::WIDE;
                }
            }
        }
        let y = match kind {
            Class::SLASH => slash_step(out, s, counts, x)?,
            Class::QUOTE => string_step(out, s, counts, x)?,
            Class::WIDE => past_ascii_step(out, s, counts, x)?,
            Class::TICK => char_sym_step(out, s, counts, x)?,
            Class::BACKTICK => backtick_step(out, s, counts, x)?,
            Class::CR => return_step(out, s, counts, x)?,
            Class::LF => line_step(out, s, counts, x),
            Class::BLANK => blank_step(s, x),
            Class::DIGIT => digits_step(out, s, counts, x)?,
            Class::START | Class::DOLLAR | Class::KEYWORD => ascii_name_step(out, s, counts, x)?,
            Class::SIGN | Class::SIGN_KEYWORD | Class::BACKSLASH => ascii_run_step(
                out, s, counts, x,
            )?,
            class if class.is_sign() => sign_step(out, s, x),
            _ if x.at < s.len() => return Err(Refusal::NoPiece.at(x.at)),
            _ => return Ok(finish(out, *counts, x)),
        };
        x = by_field(y);
    }
}
