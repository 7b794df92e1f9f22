// What hosts call: building the index, and asking for a place. REQUESTS, "Building an index" and "Asking for a place".
ghost use Rattle.std.specs.Prelude.{◌≡◌, ◌≤◌, length, nat_lt, OnOk};
ghost use Rattle.token.specs.paper.Records.{mostBytes};
ghost use Rattle.words.specs.Words.{told};
ghost use Rattle.entry.specs.paper.Host.{seen};
ghost use Rattle.lines.specs.computed.Host.{checkedOf, indexSeen, positionTold};
ghost use Rattle.lines.specs.computed.Lines.{lineCount};
ghost use Rattle.lines.specs.Theorems.{LineTheorems};

use crate::count::count_in;
use crate::find::{find_column, find_line};
use crate::index::{LF, put_starts};
use entry::check::{MOST_BYTES, check_text};
use entry::refusal::Refused;
use entry::text::has_text;
use words::write::{put_block, put_refused};

#[tactic(auto, using(crate::proofs::count::Laws::counting), unfolding(crate::specs::computed::Lines::lineCount))]
fn count_lines(script: &[u8]) -> usize
    ensures { result ≡ lineCount script.now }
{
    count_in(script, LF, LF) + 1
}

// How many lines a script has: 17, then 18 is met before it is counted.
#[tactic(auto, unfolding(crate::specs::computed::Host::checkedOf))]
fn check_script(script: &[u8]) -> Result<usize, Refused>
    ensures value { result ≡ checkedOf script.now }
    ensures in_limit { OnOk result (length script.now ≤ mostBytes) }
{
    check_text(script, MOST_BYTES)?;
    Ok(count_lines(script))
}

// Whether an index of so many numbers has no room for all lines. A script has at most one line more than bytes, so it is counted only where there
// are fewer numbers.
#[tactic(auto, using(crate::proofs::count::Laws::lines_most))]
fn is_short(numbers: usize, script: &[u8]) -> bool
    ensures { result ≡ nat_lt numbers (lineCount script.now) }
{
    numbers <= script.len() && numbers < count_lines(script)
}

// 20, 25 and 26 are told where they are met, 20 without a block, the others each with its own: an enum would be taken apart again at once.

/// The block has 16 bytes: refusal, place, number of lines, 0. Every refusal leaves the index as it was; 26 tells the number of lines too.
#[tactic(auto, unfolding(crate::specs::computed::Host::indexSeen, crate::specs::computed::Host::builtBy, crate::specs::computed::Host::checkedOf))]
pub fn index_lines(script: &[u8], index: &mut [u32], answer: &mut [u8]) -> u32
    ensures answer_after { seen result index.new answer.new ≡ indexSeen script.now index.old answer.old }
    ensures line_theorems { LineTheorems script.now }
{
    if answer.len() != 16 {
        return 20;
    }
    match check_text(script, MOST_BYTES) {
        Err(refused) => put_refused(answer, refused.what.number(), refused.place),
        Ok(()) if is_short(index.len(), script) => {
            put_block(answer, 26, 0, count_lines(script), 0);
            26
        }
        Ok(()) => {
            let lines = put_starts(index, script);
            put_block(answer, 0, 0, lines, 0);
            0
        }
    }
}

/// The block has 16 bytes: refusal, place, line, column. Only the first numbers of the index are looked at, as many as there are lines.
#[tactic(auto, using(crate::proofs::index::Laws::some_line), unfolding(crate::specs::computed::Host::positionTold, crate::specs::computed::Host::answeredBy, crate::specs::computed::Host::foundIn, crate::specs::computed::Host::checkedOf, entry::specs::paper::TokenText::hasText))]
pub fn line_column(script: &[u8], index: &[u32], place: u32, answer: &mut [u8]) -> u32
    ensures answer_after { told result answer.new ≡ positionTold script.now index.now place answer.old }
    ensures line_theorems { LineTheorems script.now }
{
    if answer.len() != 16 {
        return 20;
    }
    let at = place as usize;
    match check_script(script) {
        Err(refused) => put_refused(answer, refused.what.number(), refused.place),
        Ok(_) if !has_text(script, at, at) => put_refused(answer, 25, 0),
        Ok(lines) if index.len() < lines => put_refused(answer, 26, 0),
        Ok(lines) => {
            let line = find_line(index, lines, at);
            let start = index[line] as usize;
            put_block(answer, 0, 0, line + 1, find_column(script, start, at));
            0
        }
    }
}
