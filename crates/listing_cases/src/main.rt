// Listings of many scripts: for each case a line `-- K`, counted from 1, and the script's listing. `rt ci` runs it on `stdin`
// and holds what it prints to `stdout`; `compare/tokenize FOLDER --listing` wrote both, the listings by the published tokenize alone, and of scripts
// with operator signs that it does not know by a copy that has them.
//
// Standard input holds cases, one directly after the other. A case is four decimal digits, the script's length, a line feed, and the script.
#![tactic(auto)]

ghost use Rattle.std.specs.Prelude.{◌≡◌, length, ◌+◌, ◌<◌, ◌≤◌};
ghost use Rattle.puts.specs.Puts.{Puts};
ghost use Rattle.listing_cases.specs.Cases.{digit as digitOf, scriptLength, caseEnd, casePlace, caseOf, casesText};

use std::alloc::AllocError;
use std::io;
use std::io::Read;

const HEAD_BYTES: usize = 5;

fn digit(code: u8) -> usize
    ensures value { result ≡ digitOf code }
    ensures upper_bound { result < 256 }
{
    usize::from(code.saturating_sub(b'0'))
}

#[tactic(auto, unfolding(crate::specs::Cases::scriptLength))]
fn script_length(list: &[u8], at: usize) -> usize
    requires { at + 5 ≤ length list.now }
    ensures value { result ≡ scriptLength list.now at }
    ensures upper_bound { result < 1000000 }
{
    digit(list[at]) * 1000
        + digit(list[at + 1]) * 100
        + digit(list[at + 2]) * 10
        + digit(list[at + 3])
}

// Where the script of the case at a place ends: at the list's end where that cuts it short.
#[tactic(auto, unfolding(crate::specs::Cases::caseEnd))]
fn case_end(list: &[u8], at: usize) -> usize
    requires { at + 5 ≤ length list.now }
    ensures value { result ≡ caseEnd list.now at }
    ensures lower_bound { at + 5 ≤ result }
    ensures upper_bound { result ≤ length list.now }
{
    let start = at + HEAD_BYTES;
    start + script_length(list, at).min(list.len() - start)
}

// Puts the text of the case that starts at a place, after `earlier` others, behind a text.
#[tactic(auto, unfolding(crate::specs::Cases::caseOf, crate::specs::Cases::caseScript))]
#[inline(never)] // the room for the records lies in its frame, which a list with no case does not need
fn put_case(text: &mut Vec<u8>, list: &[u8], at: usize, earlier: u64) -> Result<(), AllocError>
    requires in_bounds { at + 5 ≤ length list.now }
    requires place { at ≡ casePlace list.now earlier }
    requires fewer { earlier ≤ at }
    ensures { Puts text.old text.new result (caseOf list.now earlier) }
{
    let start = at + HEAD_BYTES;
    let end = case_end(list, at);
    listing_text::case_text(text, earlier + 1, &list[start..end])
}

// Puts the text of each case in turn behind a text.
fn put_cases(text: &mut Vec<u8>, list: &[u8]) -> Result<(), AllocError>
    ensures { Puts text.old text.new result (casesText list.now) }
{
    let mut at: usize = 0;
    let mut earlier: u64 = 0;
    // Each case says itself where the next one starts.
    while list.len() - at >= HEAD_BYTES {
        put_case(text, list, at, earlier)?;
        at = case_end(list, at);
        earlier += 1;
    }
    Ok(())
}

// It reads and writes, and no contract can say what.
fn main(rt: HostRuntime) -> io::Result<()> {
    let mut list = Vec::new(rt.alloc());
    rt.reader().read_to_end(&mut list)?;
    let mut text = Vec::new(rt.alloc());
    put_cases(&mut text, &list)?;
    rt.write_all(&text)
}
