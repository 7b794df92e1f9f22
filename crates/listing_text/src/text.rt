// The whole text of a listing. RULES, "Listing".
ghost use Rattle.std.specs.Prelude.{◌≤◌, ◌*◌, length};
ghost use Rattle.puts.specs.Puts.{Puts};
ghost use Rattle.entry.specs.paper.Host.{seen};
ghost use Rattle.listing_text.specs.Lines.{answerText, recordsRoom, printed, caseText};
ghost use Rattle.listing_text.specs.Examples.{ListingExamples};

use crate::lines::{put_number, put_records, put_refused};
use std::alloc::AllocError;
use token::kinds::TokenKind;
use words::read::four;

/// The listing program takes up to 3,000 bytes.
pub const MOST_BYTES: usize = 3000;

/// So many bytes hold the text of any case.
pub const MOST_TEXT: usize = 510_154;

// What the records of any such script need: 17 times 3,000 plus 13 bytes.
const RECORDS_BYTES: usize = TokenKind::INT_LIT_LENGTH as usize * MOST_BYTES
    + TokenKind::HEAD_LENGTH as usize;

#[tactic(auto, using(crate::proofs::AnswerLaws::take_min), unfolding(crate::specs::Lines::answerText))]
fn put_answer(
    text: &mut Vec<u8>,
    number: u32,
    records: &[u8],
    block: &[u8],
) -> Result<(), AllocError>
    ensures { Puts text.old text.new result (answerText (seen number records.now block.now)) }
{
    if number != 0 {
        return put_refused(text, number as u64, four(block, 4));
    }
    let bytes = records.len().min(four(block, 12) as usize);
    put_records(text, &records[..bytes])
}

/// Puts the listing of a script behind a text; more than `MOST_BYTES` bytes give `long`. The last clause: the listings
/// of RULES, "Listing" and "Marked scripts", come out as it says.
#[tactic(auto, using(crate::proofs::Sizes::sizes, crate::proofs::Examples::listing_examples))]
pub fn listing(text: &mut Vec<u8>, script: &[u8]) -> Result<(), AllocError>
    ensures put { Puts text.old text.new result (printed script.now) }
    ensures size { length (printed script.now) ≤ 10 * recordsRoom }
    ensures listing_examples { ListingExamples }
{
    if script.len() > MOST_BYTES {
        return text.extend_from_slice(b"long\n");
    }
    let mut records = [0; RECORDS_BYTES];
    let mut block = [0; 16];
    let number = entry::host::tokenize(script, &mut records, &mut block);
    put_answer(text, number, &records, &block)
}

/// Puts the same with the line `-- K` before it behind a text, for one case of several.
#[tactic(auto, using(crate::proofs::Sizes::sizes))]
pub fn case_text(text: &mut Vec<u8>, number: u64, script: &[u8]) -> Result<(), AllocError>
    ensures put { Puts text.old text.new result (caseText number script.now) }
    ensures size { length (caseText number script.now) ≤ MOST_TEXT }
{
    text.extend_from_slice(b"-- ")?;
    put_number(text, number)?;
    text.push(b'\n')?;
    listing(text, script)
}
