// Where lines start: at 0, and behind each LF.
ghost use Rattle.std.specs.Prelude.{◌≡◌, ◌++◌, ◌+◌, ◌≤◌, ◌<◌, length, drop};
ghost use Rattle.std.specs.List.{range_with_len};
ghost use Rattle.std.proofs.lemmas.List.Edits.{sets};
ghost use Rattle.token.specs.paper.Records.{mostBytes};
ghost use Rattle.lines.specs.computed.Lines.{part, startsIn, startsOf, lineCount};
ghost use Rattle.lines.specs.code.Index.{lfMask};

use std::simd::prelude::*;

/// What ends a line.
pub const LF: u8 = b'\n';

/// How many bytes are looked at together, and how many of those that are left then.
const LANES: usize = 64;

const FEW: usize = 16;

// Which of the bytes from a place on are LFs: bit j is 1 where the byte j places on is one.
fn lf_mask(s: &[u8], at: usize) -> u64
    requires { at + 64 ≤ length s.now }
    ensures { result ≡ lfMask (part s.now at (at + 64)) }
{
    u8x64::from_slice(&s[at..])
        .simd_eq(u8x64::splat(LF))
        .to_bitmask()
}

// The same of few bytes. How many a vector has is part of its type, so few and many have a function each, here and in `put_few`.
fn few_mask(s: &[u8], at: usize) -> u64
    requires { at + 16 ≤ length s.now }
    ensures { result ≡ lfMask (part s.now at (at + 16)) }
{
    u8x16::from_slice(&s[at..])
        .simd_eq(u8x16::splat(LF))
        .to_bitmask()
}

// The starts behind the LFs from `from` to `to`, stored from the number `first` on: how many numbers are stored then.
#[tactic(auto, using(crate::proofs::index::Laws::each_byte))]
fn put_each(index: &mut [u32], first: usize, s: &[u8], from: usize, to: usize) -> usize
    requires ordered { from ≤ to }
    requires within { to ≤ length s.now }
    requires in_limit { length s.now ≤ mostBytes }
    requires room { first + length (startsIn from (part s.now from to)) ≤ length index.old }
    ensures value { result ≡ first + length (startsIn from (part s.now from to)) }
    ensures index_after { index.new ≡ sets index.old first (startsIn from (part s.now from to)) }
{
    let mut k = first;
    for i in from..to {
        if s[i] == LF {
            index[k] = (i + 1) as u32;
            k += 1;
        }
    }
    k
}

// So many starts of which each is one more than that before it.
#[inline(always)]
fn put_consecutive(index: &mut [u32], first: usize, start: usize, count: usize)
    requires in_limit { start + count ≤ mostBytes + 1 }
    requires room { first + count ≤ length index.old }
    ensures { index.new ≡ sets index.old first (range_with_len start count) }
{
    for i in 0..count {
        index[first + i] = (start + i) as u32;
    }
}

// The starts behind the LFs of the bytes from `from` to `to`, stored as by `put_each`, but one by one start instead of by byte: `lfs` marks the LFs.
#[inline(always)]
fn put_marked(index: &mut [u32], first: usize, s: &[u8], from: usize, to: usize, lfs: u64) -> usize
    requires some { from < to }
    requires few { to ≤ from + 64 }
    requires within { to ≤ length s.now }
    requires in_limit { length s.now ≤ mostBytes }
    requires marked { lfs ≡ lfMask (part s.now from to) }
    requires room { first + length (startsIn from (part s.now from to)) ≤ length index.old }
    ensures value { result ≡ first + length (startsIn from (part s.now from to)) }
    ensures index_after { index.new ≡ sets index.old first (startsIn from (part s.now from to)) }
{
    let mut k = first;
    let mut at = from + 1;
    let mut left = lfs;
    // No iterator goes over the bits of a mask.
    while left != 0 {
        let step = left.trailing_zeros();
        at += step as usize;
        index[k] = at as u32;
        k += 1;
        left = (left >> step) - 1;
    }
    k
}

// The same of the sixty-four bytes from `from` on.
fn put_block(index: &mut [u32], first: usize, s: &[u8], from: usize) -> usize
    requires within { from + 64 ≤ length s.now }
    requires in_limit { length s.now ≤ mostBytes }
    requires room { first + length (startsIn from (part s.now from (from + 64))) ≤ length index.old }
    ensures value { result ≡ first + length (startsIn from (part s.now from (from + 64))) }
    ensures index_after { index.new ≡ sets index.old first (startsIn from (part s.now from (from + 64))) }
{
    let lfs = lf_mask(s, from);
    // Where all bytes are LFs the compiler stores four numbers at once.
    if lfs == u64::MAX {
        put_consecutive(index, first, from + 1, LANES);
        return first + LANES;
    }
    put_marked(index, first, s, from, from + LANES, lfs)
}

// The same of the sixteen bytes from `from` on.
fn put_few(index: &mut [u32], first: usize, s: &[u8], from: usize) -> usize
    requires within { from + 16 ≤ length s.now }
    requires in_limit { length s.now ≤ mostBytes }
    requires room { first + length (startsIn from (part s.now from (from + 16))) ≤ length index.old }
    ensures value { result ≡ first + length (startsIn from (part s.now from (from + 16))) }
    ensures index_after { index.new ≡ sets index.old first (startsIn from (part s.now from (from + 16))) }
{
    let lfs = few_mask(s, from);
    if lfs == 0xFFFF {
        put_consecutive(index, first, from + 1, FEW);
        return first + FEW;
    }
    put_marked(index, first, s, from, from + FEW, lfs)
}

// The starts behind the LFs of the last bytes, those from `from` on, stored as by `put_each`.
#[tactic(auto, using(crate::proofs::index::Laws::each_few))]
fn put_rest(index: &mut [u32], first: usize, s: &[u8], from: usize) -> usize
    requires within { from ≤ length s.now }
    requires few { length s.now < from + 64 }
    requires in_limit { length s.now ≤ mostBytes }
    requires room { first + length (startsIn from (part s.now from (length s.now))) ≤ length index.old }
    ensures value { result ≡ first + length (startsIn from (part s.now from (length s.now))) }
    ensures index_after { index.new ≡ sets index.old first (startsIn from (part s.now from (length s.now))) }
{
    if LANES <= s.len() && from < s.len() {
        // In one look, together with bytes that were looked at before.
        let lfs = lf_mask(s, s.len() - LANES) >> (LANES - (s.len() - from));
        return put_marked(index, first, s, from, s.len(), lfs);
    }
    let mut k = first;
    let mut i = from;
    // As `by_block` below.
    'by_few: while FEW <= s.len() && i <= s.len() - FEW {
        k = put_few(index, k, s, i);
        i += FEW;
    }
    put_each(index, k, s, i, s.len())
}

/// All starts, from the first number on: how many these are.
#[tactic(auto, using(crate::proofs::index::Laws::each_block))]
pub fn put_starts(index: &mut [u32], s: &[u8]) -> usize
    requires in_limit { length s.now ≤ mostBytes }
    requires room { lineCount s.now ≤ length index.old }
    ensures value { result ≡ lineCount s.now }
    ensures index_after { index.new ≡ startsOf s.now ++ drop (lineCount s.now) index.old }
{
    index[0] = 0;
    let mut k: usize = 1;
    let mut i: usize = 0;
    // A `for` by `step_by` took 7 per cent more on contract text.
    'by_block: while LANES <= s.len() && i <= s.len() - LANES {
        k = put_block(index, k, s, i);
        i += LANES;
    }
    put_rest(index, k, s, i)
}
