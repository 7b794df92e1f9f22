// The line of a place, by an index of line starts, and its column in that line.
ghost use Rattle.std.specs.Prelude.{◌≡◌, ◌≤◌, ◌<◌, length};
ghost use Rattle.lines.specs.computed.Lines.{searchOf, columnSince};

use crate::count::count_in;

/// Which of the first `lines` numbers is the start of the line in which the place lies, counted from 0. The index is as a host lent it, with the
/// number of lines beside it: it may have more numbers than there are lines, and what stands behind those is the start of none.
#[tactic(auto, using(crate::proofs::find::Laws::halves), unfolding(crate::specs::computed::Lines::searchOf))]
pub fn find_line(index: &[u32], lines: usize, place: usize) -> usize
    requires some { 1 ≤ lines }
    requires within { lines ≤ length index.now }
    ensures value { result ≡ searchOf index.now lines place }
    ensures upper_bound { result < lines }
{
    // By halves: of a part of the index that begins at `low` one half goes with each turn, whatever the numbers are, so that the search ends for
    // any; std's searches tell nothing of numbers out of order.
    let mut low: usize = 0;
    let mut size = lines;
    while 1 < size {
        let half = size / 2;
        let middle = low + half;
        if index[middle] as usize <= place {
            low = middle;
            size -= half;
        } else {
            size = half;
        }
    }
    low
}

/// The column of a place in a line that starts at `start`: one more than the characters between the two.
#[tactic(auto, using(crate::proofs::count::Laws::counting), unfolding(crate::specs::computed::Lines::columnSince))]
pub fn find_column(script: &[u8], start: usize, place: usize) -> usize
    requires { place ≤ length script.now }
    ensures { result ≡ columnSince script.now start place }
{
    if place <= start {
        return 1;
    }
    place - start - count_in(&script[start..place], 0x80, 0xBF) + 1
}
