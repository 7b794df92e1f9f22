// Replays answers of the published tokenize, and to scripts with operator signs that it does not know, of a copy that has them. `rt ci` runs it on
// `stdin`, which `compare/tokenize FOLDER --list` wrote, and holds what it prints to `stdout`.
//
// Standard input holds cases, one directly after the other, up to its end. Numbers are four bytes each, little-endian. A case is
//
//     the script's length
//     how many bytes are lent for the records
//     0 where tokenize is to answer, any other where tokenize_contact is
//     the answer block, number, place, token count and record bytes: by that tokenize; 18, 19 and 27 to 29 by RULES and REQUESTS
//     the script
//     where the number is 0, the records: as many bytes as the block says
//
// A case agrees when the list holds all of it, it lends at most 10,744 bytes, the function hands back the number, the block is the one listed, the
// records stand in the lent bytes, and every other lent byte is as it was.
#![tactic(auto)]

ghost use Rattle.std.specs.Prelude.{◌≡◌, ◌↔◌, ◌+◌, ◌≤◌, ◌<◌, length, IsTrue};
ghost use Rattle.entry.specs.paper.Host.{seen, bufferSeen};
ghost use Rattle.entry.specs.computed.Host.{hostFor};
ghost use Rattle.cases.specs.Cases.{untouched};
ghost use Rattle.replay.specs.Cases.{recordsIn, mostRoom, limitsOf, listedBytes, seenLent, listedOf, caseEnd, CaseAgrees};

use cases::{Case, UNTOUCHED, is_listed};
use entry::host::{tokenize, tokenize_contact};
use std::io;
use std::io::Read;
use words::read::four;

const HEAD_BYTES: usize = 28;

// The most bytes that a case lends: no contact needs more.
const ROOM_BYTES: usize = 10744;

// What lent bytes hold that no call touched, in read-only memory, so that no case makes them anew to compare with them.
static FRESH: [u8; ROOM_BYTES] = [UNTOUCHED; ROOM_BYTES];

#[tactic(auto, unfolding(cases::specs::Cases::untouched))]
fn untouched_space() -> [u8; ROOM_BYTES]
    ensures value { result ≡ untouched mostRoom }
    ensures most_room_value { mostRoom ≡ length result }
{
    [UNTOUCHED; ROOM_BYTES]
}

// Whether the lent bytes hold these records, and behind them what they held before.
fn holds_records(lent: &[u8], records: &[u8]) -> bool
    requires { length lent.now ≤ mostRoom }
    ensures { IsTrue result ↔ (lent.now ≡ recordsIn records.now (length lent.now)) }
{
    let bytes = records.len();
    bytes <= lent.len() && &lent[..bytes] == records && lent[bytes..] == FRESH[..lent.len() - bytes]
}

// How many record bytes the case at a place lists.
#[tactic(auto, unfolding(crate::specs::Cases::listedBytes))]
fn listed_bytes(list: &[u8], at: usize) -> usize
    requires { at + 28 ≤ 18446744073709551615 }
    ensures value { result ≡ listedBytes list.now at }
    ensures upper_bound { result < 4294967296 }
{
    if four(list, at + 12) == 0 {
        four(list, at + 24) as usize
    } else {
        0
    }
}

// The answer of the function that a number stands for.
#[tactic(auto, unfolding(crate::specs::Cases::limitsOf))]
fn tokenize_by(which: u64, script: &[u8], lent: &mut [u8], block: &mut [u8]) -> u32
    ensures { seen result lent.new block.new ≡ hostFor (limitsOf which) script.now lent.old block.old }
{
    if which == 0 {
        tokenize(script, lent, block)
    } else {
        tokenize_contact(script, lent, block)
    }
}

// Whether the tokenizer answers a script as the list says: the block stands at a place of it, and these are the records. The lent bytes are untouched.
#[tactic(auto, using(crate::proofs::Laws::seen_lent), unfolding(crate::specs::Cases::listedOf))]
fn agrees(
    lent: &mut [u8],
    list: &[u8],
    at: usize,
    which: u64,
    script: &[u8],
    records: &[u8],
) -> bool
    requires at_in_bounds { at + 16 ≤ length list.now }
    requires lent_len_bound { length lent.old ≤ mostRoom }
    requires lent_value { lent.old ≡ untouched (length lent.old) }
    ensures agreement { IsTrue result ↔ (seenLent (limitsOf which) script.now (length lent.old) ≡ listedOf list.now at records.now (length lent.old)) }
    ensures lent_after { lent.new ≡ bufferSeen (seenLent (limitsOf which) script.now (length lent.old)) }
{
    let mut block = [UNTOUCHED; 16];
    let number = tokenize_by(which, script, lent, &mut block);
    is_listed(list, at, number, &block) && holds_records(lent, records)
}

// The kind of this program's cases.
struct Scripts;

impl Case for Scripts {
    ghost end = { caseEnd };

    ghost agrees = { CaseAgrees };

    ghost whole = { λ list at case. case.whole };

    #[tactic(auto, unfolding(crate::specs::Cases::caseEnd, crate::specs::Cases::scriptEnd))]
    fn case_end(list: &[u8], at: usize) -> usize {
        at + HEAD_BYTES + four(list, at) as usize + listed_bytes(list, at)
    }

    // One that lends more than there is does not agree.
    #[tactic(auto, using(crate::proofs::Laws::part), unfolding(crate::specs::Cases::scriptAt, crate::specs::Cases::recordsAt, crate::specs::Cases::caseEnd, crate::specs::Cases::scriptEnd, crate::specs::Cases::roomAt, crate::specs::Cases::limitsAt))]
    fn case_agrees(list: &[u8], at: usize) -> bool {
        let start = at + HEAD_BYTES;
        let end = start + four(list, at) as usize;
        let next = end + listed_bytes(list, at);
        let room = four(list, at + 4) as usize;
        let mut lent = untouched_space();
        room <= ROOM_BYTES
            && agrees(
                &mut lent[..room],
                list,
                at + 12,
                four(list, at + 8),
                &list[start..end],
                &list[end..next],
            )
    }
}

// No ensures: no contract can speak of what was written to standard output.
fn main(rt: HostRuntime) -> io::Result<()> {
    let mut list = Vec::new(rt.alloc());
    rt.reader().read_to_end(&mut list)?;
    let counts = cases::replay::<Scripts>(&list);
    println!(rt;
        "{} scripts replayed, {} differ",
        counts.cases, counts.differ
    )
}
