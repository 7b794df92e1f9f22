// The character classes of RULES (docs/RULES.md), "Characters", as runs: for each class the maximal runs of the characters up to U+FFFF that belong to
// it, one to a line, then how many characters were walked. `rt ci` holds what it writes to `stdout`, which compare/class-runs made of `token.rs` itself,
// and of operator signs also of the categories as they are published.
#![tactic(auto)]

ghost use Rattle.std.specs.Prelude.{◌≡◌, ◌-◌, ◌<◌, ◌≤◌, length, IfOk};
ghost use Rattle.puts.specs.Puts.{Puts};
ghost use Rattle.class_runs.specs.Lines.{nameOf, lastDigit, inClass, runText, runLine, runsFrom, classText};

use chars::classes::classes_of;
use puts::hex_digit;
use std::alloc::AllocError;
use std::io;

// Room for all lines, which take less than 13,000 bytes.
const ROOM_BYTES: usize = 16 * 1024;

#[derive(Clone, Copy, Debug, PartialEq, Eq)]
enum Class {
    IdStart,
    IdChar,
    OpChar,
    Printable,
}

impl Class {
    // What its lines begin with.
    fn name(self) -> &'static [u8]
        ensures { result.now ≡ nameOf self }
    {
        match self {
            Class::IdStart => b"id-start",
            Class::IdChar => b"id-char",
            Class::OpChar => b"op-char",
            Class::Printable => b"printable",
        }
    }

    fn has(self, c: u32) -> bool
        ensures { result ≡ inClass self c }
    {
        let classes = classes_of(c);
        match self {
            Class::IdStart => classes.id_start,
            Class::IdChar => classes.id_char,
            Class::OpChar => classes.op_sign,
            Class::Printable => classes.printable,
        }
    }
}

// The last hexadecimal digit of n, in upper case.
fn last_digit(n: u32) -> u8
    ensures { result ≡ lastDigit n }
{
    hex_digit((n & 0xF) as u8, b'A')
}

// What follows the name of the class in the line of a run: the first character and the last.
fn run_text(first: u32, last: u32) -> [u8; 11]
    ensures value { result ≡ runText first last }
    ensures size { 11 ≡ length result }
{
    [
        b' ',
        last_digit(first >> 12),
        last_digit(first >> 8),
        last_digit(first >> 4),
        last_digit(first),
        b' ',
        last_digit(last >> 12),
        last_digit(last >> 8),
        last_digit(last >> 4),
        last_digit(last),
        b'\n',
    ]
}

// Puts the line of the run that begins at `start` and ends before `end`, if there is one, behind a text.
fn put_run(text: &mut Vec<u8>, class: Class, start: u32, end: u32) -> Result<(), AllocError>
    ensures { Puts text.old text.new result (runLine class start end) }
{
    if start < end {
        text.extend_from_slice(class.name())?;
        text.extend_from_slice(&run_text(start, end - 1))?;
    }
    Ok(())
}

// Puts the lines of the class's runs among the characters from `from` up to `end`, not included, behind a text, and hands back how many characters
// these are. The run at hand is from start up to c.
fn put_runs(text: &mut Vec<u8>, class: Class, from: u32, end: u32) -> Result<u32, AllocError>
    requires { from ≤ end }
    ensures put { Puts text.old text.new result (runsFrom class from from (end - from)) }
    ensures walked { IfOk result (λ walked. walked ≡ end - from) }
{
    let mut start = from;
    for c in from..end {
        if !class.has(c) {
            put_run(text, class, start, c)?;
            start = c + 1;
        }
    }
    put_run(text, class, start, end)?;
    Ok(end - from)
}

// The same for all characters up to U+FFFF. The surrogates between the two parts are none.
fn put_class(text: &mut Vec<u8>, class: Class) -> Result<u32, AllocError>
    ensures put { Puts text.old text.new result (classText class) }
    ensures walked { IfOk result (λ walked. walked ≡ 63488) }
{
    let below = put_runs(text, class, 0, 0xD800)?;
    let above = put_runs(text, class, 0xE000, 0x10000)?;
    Ok(below + above)
}

fn main(rt: HostRuntime) -> io::Result<()> {
    let mut text = Vec::with_capacity(rt.alloc(), ROOM_BYTES)?;
    put_class(&mut text, Class::IdStart)?;
    put_class(&mut text, Class::IdChar)?;
    put_class(&mut text, Class::OpChar)?;
    let walked = put_class(&mut text, Class::Printable)?;
    rt.write_all(&text)?;
    println!(rt; "characters {walked}")
}
