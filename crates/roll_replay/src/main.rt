// Replays the answers of a second reader of rolls, which calls nothing of the crates. `rt ci` runs it on `stdin`, which
// `compare/rolls` wrote, and holds what it prints to `stdout`.
//
// Standard input holds cases, one directly after the other, up to its end. Numbers are four bytes each, little-endian. A case is
//
//     the roll's length
//     how many records are asked for
//     the roll's block, 16 bytes: number, place, token count, bytes
//     the roll
//     for each record asked for: its offset, the previous end, and its block, 40 bytes
//
// A case agrees when answer_roll hands back the number that the roll's block begins with and fills the block as it is listed, and
// answer_record does so for each record.
#![tactic(auto)]

ghost use Rattle.std.specs.Prelude.{◌≡◌, ◌↔◌, ◌+◌, ◌*◌, ◌≤◌, ◌<◌, length, IsTrue};
ghost use Rattle.roll_replay.specs.Cases.{RollAgrees, RecordAgrees, RecordsAgree, caseEnd, CaseAgrees};

use cases::{Case, UNTOUCHED, is_listed};
use std::io;
use std::io::Read;
use words::read::four;

const HEAD_BYTES: usize = 24;

const ASKED_BYTES: usize = 48;

#[tactic(auto, unfolding(cases::specs::Cases::untouched))]
fn roll_agrees(list: &[u8], at: usize, roll: &[u8]) -> bool
    requires { at + 16 ≤ length list.now }
    ensures { IsTrue result ↔ RollAgrees list.now at roll.now }
{
    let mut block = [UNTOUCHED; 16];
    let number = rolls::host::answer_roll(roll, &mut block);
    is_listed(list, at, number, &block)
}

// The record that is asked for at a place of the list.
fn record_agrees(list: &[u8], roll: &[u8], at: usize) -> bool
    requires { at + 48 ≤ length list.now }
    ensures { IsTrue result ↔ RecordAgrees list.now roll.now at }
{
    let offset = four(list, at) as u32;
    let previous = four(list, at + 4) as u32;
    let mut block = [UNTOUCHED; 40];
    let number = rolls::host::answer_record(roll, offset, previous, &mut block);
    is_listed(list, at + 8, number, &block)
}

// So many records asked for, from a place on.
fn records_agree(list: &[u8], roll: &[u8], from: usize, count: usize) -> bool
    requires { from + 48 * count ≤ length list.now }
    ensures { IsTrue result ↔ RecordsAgree list.now roll.now from count }
{
    (0..count).all(|k| record_agrees(list, roll, from + ASKED_BYTES * k))
}

// The kind of this program's cases.
struct Rolls;

impl Case for Rolls {
    ghost end = { caseEnd };

    ghost agrees = { CaseAgrees };

    ghost whole = { λ list at case. case.whole };

    #[tactic(auto, unfolding(crate::specs::Cases::caseEnd, crate::specs::Cases::rollEnd))]
    fn case_end(list: &[u8], at: usize) -> usize {
        at + HEAD_BYTES + four(list, at) as usize + ASKED_BYTES * four(list, at + 4) as usize
    }

    #[tactic(auto, unfolding(crate::specs::Cases::caseEnd, crate::specs::Cases::rollEnd, crate::specs::Cases::rollAt))]
    fn case_agrees(list: &[u8], at: usize) -> bool {
        let start = at + HEAD_BYTES;
        let end = start + four(list, at) as usize;
        let count = four(list, at + 4) as usize;
        let roll = &list[start..end];
        roll_agrees(list, at + 8, roll) && records_agree(list, roll, end, count)
    }
}

// No ensures: no contract can speak of what was written to standard output.
fn main(rt: HostRuntime) -> io::Result<()> {
    let mut list = Vec::new(rt.alloc());
    rt.reader().read_to_end(&mut list)?;
    let counts = cases::replay::<Rolls>(&list);
    println!(rt; "{} rolls replayed, {} differ", counts.cases, counts.differ)
}
