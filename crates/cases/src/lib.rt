// Lists of cases with the answers that are to be given again: what the programs that replay them share. Numbers are four bytes each, little-endian.
#![tactic(auto)]

ghost use Rattle.std.specs.Prelude.{◌≡◌, ◌↔◌, ◌+◌, ◌<◌, ◌≤◌, ℕ, List, length, IsTrue};
ghost use Rattle.cases.specs.Cases.{Listed, nextIn, Replays};

use words::read::four;

/// What each lent byte holds before a call.
pub const UNTOUCHED: u8 = 0xA5;

/// Whether the list has this answer block at a place, and first in it the number that was handed back.
pub fn is_listed(list: &[u8], at: usize, number: u32, block: &[u8]) -> bool
    requires { at + length block.now ≤ length list.now }
    ensures { IsTrue result ↔ Listed list.now at number block.now }
{
    u64::from(number) == four(list, at) && &list[at..at + block.len()] == block
}

/// How many cases there are, and how many of them do not agree.
#[derive(Clone, Copy, Debug, PartialEq, Eq)]
pub struct Counts {
    pub cases: u64,
    pub differ: u64,
}

/// A kind of cases: where the case at a place ends, and what it means that it agrees. One that the end of the list cuts short does not agree.
pub trait Case {
    ghost end: { List ℕ → ℕ → ℕ };

    ghost agrees: { List ℕ → ℕ → Type 0 };

    ghost whole: { (list : List ℕ) (at : ℕ) → agrees list at → end list at ≤ length list };

    /// Where the case at a place ends, by what it says of itself.
    fn case_end(list: &[u8], at: usize) -> usize
        requires { at < length list.now }
        ensures value { result ≡ end list.now at }
        ensures onward { at < result };

    /// Whether the case at a place agrees, of which the list has all.
    fn case_agrees(list: &[u8], at: usize) -> bool
        requires in_list { at < length list.now }
        requires listed { end list.now at ≤ length list.now }
        ensures { IsTrue result ↔ agrees list.now at };
}

/// Replays the cases of the list, from its start to its end.
pub fn replay<C: Case>(list: &[u8]) -> Counts
    ensures { Replays list.now (λ at. nextIn list.now (C.end list.now at)) (C.agrees list.now) (length list.now) result.cases result.differ }
{
    let mut at: usize = 0;
    let mut cases: u64 = 0;
    let mut differ: u64 = 0;
    // No `for`: each case says itself where the next one starts.
    while at < list.len() {
        let end = C::case_end(list, at);
        cases += 1;
        if end > list.len() || !C::case_agrees(list, at) {
            differ += 1;
        }
        at = end.min(list.len());
    }
    Counts { cases, differ }
}
