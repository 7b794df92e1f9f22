// What hosts call: a number and an answer block. REQUESTS, "Answer of a roll" and "Answer of a record".
ghost use Rattle.std.specs.Prelude.{◌≡◌, length};
ghost use Rattle.words.specs.Words.{told};
ghost use Rattle.rolls.specs.paper.Refusals.{refusalNumber};
ghost use Rattle.rolls.specs.paper.Host.{tokenBlock, stopBlock};
ghost use Rattle.rolls.specs.code.Record.{tokenIn};
ghost use Rattle.rolls.specs.computed.Host.{rollTold, recordTold};
ghost use Rattle.rolls.specs.Theorems.{RollTheorems};

use crate::record::{RollCursor, Yielded, read_token};
use crate::refusal::Refused;
use crate::roll::read_roll;
use token::kinds::bit_of;
use words::write::{put_block, put_numbers, put_refused, put8};

// 20 is told where it is met, with no block: in an enum it would be taken apart again at once.

/// 16 bytes: refusal, place, token count, bytes of the roll; unused ones 0. The last clause says what holds of every roll.
#[tactic(auto, using(crate::proofs::host::Laws::answers))]
pub fn answer_roll(roll: &[u8], answer: &mut [u8]) -> u32
    ensures answer_after { told result answer.new ≡ rollTold roll.now answer.old }
    ensures roll_theorems { RollTheorems roll.now }
{
    if answer.len() != 16 {
        return 20;
    }
    match read_roll(roll) {
        Ok(count) => {
            put_block(answer, 0, 0, count, roll.len());
            0
        }
        Err(refused) => put_refused(answer, refused.what.number(), refused.place),
    }
}

// The block of a token.
#[tactic(auto, using(crate::proofs::host::Laws::put_token_block))]
fn put_token(answer: &mut [u8], found: Yielded)
    requires { length answer.old ≡ 40 }
    ensures { answer.new ≡ tokenBlock (tokenIn found) found.next.at }
{
    let form = found.kind.form();
    put_numbers(answer, 0, 0, 0, form.number as usize, found.start);
    put_numbers(
        answer,
        16,
        found.end,
        bit_of(found.cut) as usize,
        0,
        found.next.at,
    );
    put8(answer, 32, form.values);
}

// The block of a refusal: all behind the place is 0.
#[tactic(auto, using(crate::proofs::host::Laws::put_stop_block))]
fn put_stop(answer: &mut [u8], refused: Refused)
    requires { length answer.old ≡ 40 }
    ensures { answer.new ≡ stopBlock (refusalNumber refused.what) refused.place }
{
    put_numbers(
        answer,
        0,
        refused.what.number() as usize,
        refused.place,
        0,
        0,
    );
    put_numbers(answer, 16, 0, 0, 0, 0);
    put8(answer, 32, 0);
}

/// 40 bytes: refusal, place, kind, start, end, cut, 0, offset of the next record, and the values in 8 bytes.
#[tactic(auto, using(crate::proofs::host::Laws::answers))]
pub fn answer_record(roll: &[u8], at: u32, previous: u32, answer: &mut [u8]) -> u32
    ensures answer_after { told result answer.new ≡ recordTold roll.now at previous answer.old }
    ensures roll_theorems { RollTheorems roll.now }
{
    if answer.len() != 40 {
        return 20;
    }
    let cursor = RollCursor {
        at: at as usize,
        previous: previous as usize,
    };
    match read_token(roll, cursor) {
        Ok(found) => {
            put_token(answer, found);
            0
        }
        Err(refused) => {
            put_stop(answer, refused);
            refused.what.number()
        }
    }
}
