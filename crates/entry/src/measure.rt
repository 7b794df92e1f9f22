// Measuring alone: what the records of a script need, told without storing any. REQUESTS, "Answer of measuring".
ghost use Rattle.std.specs.Prelude.{◌≡◌, length};
ghost use Rattle.words.specs.Words.{told};
ghost use Rattle.entry.specs.paper.Measure.{refusedBlock};
ghost use Rattle.entry.specs.computed.Measure.{measureTold};
ghost use Rattle.entry.specs.code.Host.{blockBy};
ghost use Rattle.entry.specs.Theorems.{MeasureTheorems};

use crate::host::judge;
use crate::limits::Limits;
use token::counts::Need;
use words::write::put_numbers;

// The block of a script that has tokens.
#[tactic(auto, using(crate::proofs::measure::Laws::blocks))]
fn put_need(answer: &mut [u8], need: Need)
    requires { length answer.old ≡ 32 }
    ensures { answer.new ≡ blockBy need }
{
    let counts = need.counts;
    put_numbers(answer, 0, 0, 0, need.tokens, need.bytes);
    put_numbers(
        answer,
        16,
        counts.int_lits,
        counts.long_lits,
        counts.strs,
        counts.newlines,
    );
}

// The block of a refusal: all behind the place is 0.
#[tactic(auto, using(crate::proofs::measure::Laws::blocks))]
fn put_refusal(answer: &mut [u8], number: u32, place: usize)
    requires { length answer.old ≡ 32 }
    ensures { answer.new ≡ refusedBlock number place }
{
    put_numbers(answer, 0, number as usize, place, 0, 0);
    put_numbers(answer, 16, 0, 0, 0, 0);
}

/// What the records of a script need, told in a block of 32 bytes: refusal, place, token count, record bytes, and how many tokens are IntLits,
/// LongLits, Strs and Newlines. The number is 0 where `tokenize` takes the script if so many bytes are lent. Else it is that of `tokenize`, 17, 18, 29 or
/// one of 1 to 16, with its place and zeros behind it. A block of another length is refused by 20 and keeps its bytes.
pub fn measure(script: &[u8], answer: &mut [u8]) -> u32
    ensures answer_after { told result answer.new ≡ measureTold script.now answer.old }
    ensures measure_theorems { MeasureTheorems script.now answer.old }
{
    if answer.len() != 32 {
        return 20;
    }
    let mut scratch = [0u8; 0]; // no record fits
    match judge(&mut scratch, script, &Limits::COMPILER) {
        Ok(need) => {
            put_need(answer, need);
            0
        }
        Err(refused) => {
            let number = refused.what.number();
            put_refusal(answer, number, refused.place);
            number
        }
    }
}
