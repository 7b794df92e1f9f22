// The longest valid UTF-8 prefix of every sequence of one, two and three bytes, and of those of four bytes whose last two bytes are
// 7F, 80, BF or C0. Each line has the length, the first byte in hexadecimal (or `all`), and how many of these
// sequences have a longest valid prefix of 0, 1, 2, 3 and 4 bytes. `rt ci` holds what it writes to `stdout`, which compare/utf8
// --summary made of Rust's std::str::from_utf8.
#![tactic(auto)]

ghost use Rattle.std.specs.Prelude.{◌≡◌, ◌≤◌, length};
ghost use Rattle.puts.specs.Puts.{Puts};
ghost use Rattle.utf8_runs.specs.Sequences.{bytesOf, tallied, walked};
ghost use Rattle.utf8_runs.specs.Rows.{countsText, hexOf, rowText, rowsText};

use puts::{hex_digit, put_number, put_spaced};
use std::alloc::AllocError;
use std::io;

// Room for all lines, which take less than 21,000 bytes.
const ROOM_BYTES: usize = 32 * 1024;

const EDGES: [u8; 4] = [0x7F, 0x80, 0xBF, 0xC0];

// The bytes of the sequence of number k that begins with a, of which the first n count. An array of four, with n beside it: n is one to four, and an
// array's length is known when it is compiled.
#[tactic(auto, unfolding(crate::specs::Sequences::bytesOf))]
fn bytes_of(n: usize, a: u8, k: u32) -> [u8; 4]
    ensures value { result ≡ bytesOf n a k }
    ensures size { 4 ≡ length result }
{
    let low = (k & 0xFF) as u8;
    match n {
        0..=2 => [a, low, 0, 0],
        3 => [a, (k >> 8 & 0xFF) as u8, low, 0],
        _ => {
            let second = (k >> 4 & 0xFF) as u8;
            let third = (k >> 2 & 3) as usize;
            let fourth = (k & 3) as usize;
            [a, second, EDGES[third], EDGES[fourth]]
        }
    }
}

// Counts an answer.
#[tactic(auto, unfolding(crate::specs::Sequences::tallied))]
fn tally(counts: &mut [u32; 5], answer: usize)
    ensures { counts.new ≡ tallied counts.old answer }
{
    if answer < 5 {
        counts[answer] = std::num::wrapping_add_u32(counts[answer], 1);
    }
}

// Counts the answers for the sequences of n bytes that begin with a.
fn walk(n: usize, a: u8, tails: u32, counts: &mut [u32; 5], all: &mut [u32; 5])
    requires { n ≤ 4 }
    ensures counts_after { counts.new ≡ walked n a tails counts.old }
    ensures all_after { all.new ≡ walked n a tails all.old }
{
    for k in 0..tails {
        let bytes = bytes_of(n, a, k);
        let answer = chars::utf8::valid_prefix(&bytes[..n]);
        tally(counts, answer);
        tally(all, answer);
    }
}

// A byte in hexadecimal, in lower case.
fn hex_of(a: u8) -> [u8; 2]
    ensures value { result ≡ hexOf a }
    ensures size { 2 ≡ length result }
{
    [hex_digit(a / 16, b'a'), hex_digit(a % 16, b'a')]
}

// Puts the counts behind a text, and ends the line.
fn put_counts(text: &mut Vec<u8>, counts: &[u32; 5]) -> Result<(), AllocError>
    ensures { Puts text.old text.new result (countsText counts.now) }
{
    for count in counts {
        put_spaced(text, u64::from(*count))?;
    }
    text.push(b'\n')?;
    Ok(())
}

// Puts a line behind a text: the length, the first byte or `all`, and the counts.
fn put_row(text: &mut Vec<u8>, n: usize, first: &[u8], counts: &[u32; 5]) -> Result<(), AllocError>
    ensures { Puts text.old text.new result (rowText n first.now counts.now) }
{
    put_number(text, n as u64)?;
    text.push(b' ')?;
    text.extend_from_slice(first)?;
    put_counts(text, counts)
}

// Puts the lines of length n behind a text, the last of them for all first bytes. For each first byte there are as many sequences as `tails` says.
fn put_rows(text: &mut Vec<u8>, n: usize, tails: u32) -> Result<(), AllocError>
    requires { n ≤ 4 }
    ensures { Puts text.old text.new result (rowsText n tails) }
{
    let mut all = [0; 5];
    for a in 0u32..256 {
        let mut counts = [0; 5];
        walk(n, a as u8, tails, &mut counts, &mut all);
        put_row(text, n, &hex_of(a as u8), &counts)?;
    }
    put_row(text, n, b"all", &all)
}

fn main(rt: HostRuntime) -> io::Result<()> {
    let mut text = Vec::with_capacity(rt.alloc(), ROOM_BYTES)?;
    put_rows(&mut text, 1, 1)?;
    put_rows(&mut text, 2, 256)?;
    put_rows(&mut text, 3, 65536)?;
    put_rows(&mut text, 4, 4096)?;
    rt.write_all(&text)
}
