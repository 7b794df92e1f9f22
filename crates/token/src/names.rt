// Words and runs of operator signs: byte by byte while they are ASCII, since few have the sixteen that `chars::runs` looks at together, and past it by
// one look at each character, or the width of each sign; only underscores in names that `word_on` reads, where two stand side by side, are passed
// together. Each is told by a place and the class of the byte there.
ghost use Rattle.std.specs.Prelude.{◌≡◌, ◌≤◌, ◌<◌, length};
ghost use Rattle.chars.specs.paper.Text.{from, place, idChar};
ghost use Rattle.chars.specs.computed.Runs.{afterRun};
ghost use Rattle.chars.specs.paper.Quoted.{oneOf};
ghost use Rattle.token.specs.code.ByteClass.{inWord, inRun};
ghost use Rattle.token.specs.code.Names.{hereOf, runTo, lowBefore, wordChar, runChar};

use crate::byte_class::Class;
use crate::cursor::byte_at;
use chars::runs;
use chars::runs::OneOf;
use chars::text::{is_id_of_two, look, sign_width};

/// A place, and what the byte there is.
#[derive(Clone, Copy, Debug, PartialEq, Eq)]
pub struct Here {
    pub at: usize,
    pub class: Class,
}

pub fn here_at(s: &[u8], at: usize) -> Here
    ensures { result ≡ hereOf s.now at }
{
    Here {
        at,
        class: Class::at(s, at),
    }
}

// This loop and that of `run_end` go by two tests, and by bytes, for most end within four; those of all characters go by a look and by the width of a sign. With the
// test as a parameter, a trait and two impls of it would stand here for one line.

/// Where the ASCII id characters and underscores end that stand there.
pub fn word_end(s: &[u8], at: usize) -> Here
    requires { at ≤ length s.now }
    ensures { result ≡ hereOf s.now (runTo inWord s.now at) }
{
    let mut i = at;
    while i < s.len() && Class::of(s[i]).in_word() {
        i += 1;
    }
    here_at(s, i)
}

// Past the underscores that stand there, sixteen together, where two stand side by side, as in few names; else where it was.
#[inline(always)]
fn lows_end(s: &[u8], at: usize) -> usize
    requires { at < length s.now }
    ensures within { result ≤ length s.now }
    ensures same { runTo inWord s.now result ≡ runTo inWord s.now at }
{
    if s[at] == b'_' && byte_at(s, at + 1) == b'_' {
        return runs::run_end::<OneOf<b'_', b'_'>>(s, at + 2);
    }
    at
}

/// The same as `word_end`, for names that go past ASCII or are read alone: mostly nothing of ASCII stands there.
#[inline(always)]
pub fn word_on(s: &[u8], at: usize) -> Here
    requires { at ≤ length s.now }
    ensures { result ≡ hereOf s.now (runTo inWord s.now at) }
{
    let here = here_at(s, at);
    if !here.class.in_word() {
        return here;
    }
    let next = lows_end(s, at);
    word_end(s, next)
}

// Past the id characters of two bytes that stand there. Where one of them stands mostly others follow, and none of these needs a class, or a width to
// be told.
#[inline(always)]
fn letters_end(s: &[u8], at: usize) -> usize
    requires { at ≤ length s.now }
    ensures within { result ≤ length s.now }
    ensures on { at ≤ result }
    ensures words { afterRun wordChar (from s.now result) ≡ afterRun wordChar (from s.now at) }
    ensures ids { afterRun idChar (from s.now result) ≡ afterRun idChar (from s.now at) }
{
    let mut i = at;
    while i < s.len() && is_id_of_two(s, i) {
        i += 2;
    }
    i
}

/// Where all id characters and underscores end that stand there.
#[inline(always)]
pub fn wide_word_end(s: &[u8], at: usize) -> Here
    requires { at ≤ length s.now }
    ensures { result ≡ hereOf s.now (place (length s.now) (afterRun wordChar (from s.now at))) }
{
    let mut end = word_on(s, at);
    // A step is a character past ASCII, those of two bytes behind it, and the ASCII behind these.
    while end.class == Class::WIDE {
        let here = look(s, end.at);
        if !here.classes.id_char {
            return end;
        }
        let next = letters_end(s, end.at + here.width);
        end = word_on(s, next);
    }
    end
}

/// Where the id characters end that stand there.
#[inline(always)]
pub fn id_run_end(s: &[u8], at: usize) -> usize
    requires { at ≤ length s.now }
    ensures { result ≡ place (length s.now) (afterRun idChar (from s.now at)) }
{
    let mut i = at;
    // A step is a byte of ASCII or a character past it: no iterator takes such steps.
    loop {
        let class = Class::at(s, i);
        if class == Class::WIDE {
            let here = look(s, i);
            if !here.classes.id_char {
                return i;
            }
            i = letters_end(s, i + here.width);
        } else if class.in_word() {
            if s[i] == b'_' {
                return i;
            }
            i += 1;
        } else {
            return i;
        }
    }
}

/// Does an underscore stand last in the word, and not first?
pub fn ends_low(s: &[u8], start: usize, end: usize) -> bool
    requires some { start < end }
    requires within { end ≤ length s.now }
    ensures { result ≡ lowBefore s.now start end }
{
    s[end - 1] == b'_' && start < end - 1
}

/// Where the ASCII operator signs other than `/` end that stand there.
pub fn run_end(s: &[u8], at: usize) -> Here
    requires { at ≤ length s.now }
    ensures { result ≡ hereOf s.now (runTo inRun s.now at) }
{
    let mut i = at;
    while i < s.len() && Class::of(s[i]).in_run() {
        i += 1;
    }
    here_at(s, i)
}

/// Where all operator signs other than `/` end that stand there.
#[inline(always)]
pub fn wide_run_end(s: &[u8], at: usize) -> Here
    requires { at ≤ length s.now }
    ensures { result ≡ hereOf s.now (place (length s.now) (afterRun runChar (from s.now at))) }
{
    let mut end = run_end(s, at);
    // A step is a character past ASCII, and the ASCII behind it.
    while end.class == Class::WIDE {
        let Some(width) = sign_width(s, end.at) else {
            return end;
        };
        end = run_end(s, end.at + width);
    }
    end
}

/// Is the byte behind a `/` one that makes it a comment's opening?
pub fn opens_with(b: u8) -> bool
    ensures { result ≡ oneOf "*/" b }
{
    matches!(b, b'*' | b'/')
}
