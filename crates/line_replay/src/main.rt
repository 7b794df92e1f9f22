// Replays lines and columns that another program counted, which calls nothing of the crates. `rt ci` runs it on `stdin`, which
// `compare/lines` wrote, and holds what it prints to `stdout`.
//
// Standard input holds cases, one directly after the other, up to its end. Numbers are four bytes each, little-endian. A case is
//
//     the script's length
//     how many numbers are lent for the index
//     what each of them holds before
//     how many places are asked for
//     the block of building, 16 bytes: refusal, place, number of lines, 0
//     the script
//     the lent numbers afterwards
//     for each place asked for: the place, and its block, 16 bytes: refusal, place, line, column
//
// A case agrees when the list holds all of it, it lends at most 512 numbers, index_lines hands back the number that its block begins with and
// leaves block and lent numbers as they are listed, and line_column, over the lent numbers as they are then, does so with each place's block.
#![tactic(auto)]

ghost use Rattle.std.specs.Prelude.{◌≡◌, ◌↔◌, ◌+◌, ◌*◌, ◌≤◌, ◌<◌, length, IsTrue};
ghost use Rattle.entry.specs.paper.Host.{bufferSeen};
ghost use Rattle.line_replay.specs.Cases.{mostRoom, holding, builtSeen, NumbersListed, BlockAgrees, PlaceAgrees, PlacesAgree, Agrees, caseEnd, CaseAgrees};

use cases::{Case, UNTOUCHED, is_listed};
use std::io;
use std::io::Read;
use words::read::four;

const HEAD_BYTES: usize = 32;

const ASKED_BYTES: usize = 20;

// The most numbers that a case lends.
const ROOM_NUMBERS: usize = 512;

// Room for the lent numbers, which all hold the same.
#[tactic(auto, unfolding(crate::specs::Cases::holding))]
fn number_space(held: u32) -> [u32; ROOM_NUMBERS]
    ensures value { result ≡ holding held mostRoom }
    ensures most_room_value { mostRoom ≡ length result }
{
    [held; ROOM_NUMBERS]
}

// Whether the list has these numbers, from a place on.
fn numbers_listed(list: &[u8], at: usize, numbers: &[u32]) -> bool
    requires { at + 4 * length numbers.now ≤ length list.now }
    ensures { IsTrue result ↔ NumbersListed list.now at (length numbers.now) numbers.now }
{
    (0..numbers.len()).all(|k| u64::from(numbers[k]) == four(list, at + 4 * k))
}

// The place that is asked for at a place of the list.
fn place_agrees(list: &[u8], script: &[u8], index: &[u32], at: usize) -> bool
    requires { at + 20 ≤ length list.now }
    ensures { IsTrue result ↔ PlaceAgrees list.now script.now index.now at }
{
    let place = four(list, at) as u32;
    let mut block = [UNTOUCHED; 16];
    let number = lines::host::line_column(script, index, place, &mut block);
    is_listed(list, at + 4, number, &block)
}

// So many places asked for, from a place of the list on.
fn places_agree(list: &[u8], script: &[u8], index: &[u32], from: usize, count: usize) -> bool
    requires { from + 20 * count ≤ length list.now }
    ensures { IsTrue result ↔ PlacesAgree list.now script.now index.now from count }
{
    (0..count).all(|k| place_agrees(list, script, index, from + ASKED_BYTES * k))
}

// Builds the index in the lent numbers: whether number and block are those that the list has at a place.
#[tactic(auto, unfolding(cases::specs::Cases::untouched, crate::specs::Cases::builtSeen))]
fn block_agrees(lent: &mut [u32], list: &[u8], at: usize, script: &[u8]) -> bool
    requires { at + 16 ≤ length list.now }
    ensures agreement { IsTrue result ↔ BlockAgrees list.now at (builtSeen script.now lent.old) }
    ensures lent_after { lent.new ≡ bufferSeen (builtSeen script.now lent.old) }
{
    let mut block = [UNTOUCHED; 16];
    let number = lines::host::index_lines(script, lent, &mut block);
    is_listed(list, at, number, &block)
}

// Whether index and places of a script are as the list says: the block stands at a place of it, the numbers and the places asked for from another on.
fn agrees(
    lent: &mut [u32],
    list: &[u8],
    at: usize,
    script: &[u8],
    from: usize,
    count: usize,
) -> bool
    requires at_in_bounds { at + 16 ≤ length list.now }
    requires count_in_bounds { from + 4 * length lent.old + 20 * count ≤ length list.now }
    ensures agreement { IsTrue result ↔ Agrees list.now at script.now from (length lent.old) count (builtSeen script.now lent.old) }
    ensures lent_after { lent.new ≡ bufferSeen (builtSeen script.now lent.old) }
{
    block_agrees(lent, list, at, script)
        && numbers_listed(list, from, lent)
        && places_agree(list, script, lent, from + 4 * lent.len(), count)
}

// The kind of this program's cases.
struct Places;

impl Case for Places {
    ghost end = { caseEnd };

    ghost agrees = { CaseAgrees };

    ghost whole = { λ list at case. case.whole };

    #[tactic(auto, unfolding(crate::specs::Cases::scriptEnd, crate::specs::Cases::caseEnd))]
    fn case_end(list: &[u8], at: usize) -> usize {
        let numbers = 4 * four(list, at + 4) as usize;
        let places = ASKED_BYTES * four(list, at + 12) as usize;
        at + HEAD_BYTES + four(list, at) as usize + numbers + places
    }

    // One that lends more than there is does not agree.
    #[tactic(auto, using(crate::proofs::Laws::part), unfolding(crate::specs::Cases::scriptAt, crate::specs::Cases::scriptEnd, crate::specs::Cases::caseEnd))]
    fn case_agrees(list: &[u8], at: usize) -> bool {
        let start = at + HEAD_BYTES;
        let end = start + four(list, at) as usize;
        let room = four(list, at + 4) as usize;
        let count = four(list, at + 12) as usize;
        let mut lent = number_space(four(list, at + 8) as u32);
        room <= ROOM_NUMBERS
            && agrees(
                &mut lent[..room],
                list,
                at + 16,
                &list[start..end],
                end,
                count,
            )
    }
}

// No ensures: no contract can speak of what was written to standard output.
fn main(rt: HostRuntime) -> io::Result<()> {
    let mut list = Vec::new(rt.alloc());
    rt.reader().read_to_end(&mut list)?;
    let counts = cases::replay::<Places>(&list);
    println!(rt;
        "{} scripts replayed, {} differ",
        counts.cases, counts.differ
    )
}
