//! Where a run of bytes of a set ends.
ghost use Rattle.std.specs.Prelude.{◌+◌, ℕ, Bool, not, ◌||◌, ◌&&◌, ◌==◌, ◌≡◌, ◌≤◌, ◌<◌, nat_le, map, take, drop, length, IfSome, IfNone};
ghost use Rattle.std.specs.List.{prefix_len};
ghost use Rattle.std.specs.Simd.Lanes.{mask_l};
ghost use Rattle.chars.specs.promises.Runs.{RunLaws};

use std::simd::prelude::*;

/// How many bytes are looked at together.
pub const LANES: usize = 16;

/// A set of bytes, which a run consists of.
pub trait ByteSet {
    ghost holds: { ℕ → Bool };

    /// Whether the byte is in the set.
    fn has(b: u8) -> bool
        ensures { result ≡ holds b };

    /// A bit for each of sixteen bytes, the lowest for the first: 1 where the byte is not in the set.
    fn outside(block: u8x16) -> u64
        ensures { result ≡ mask_l (map (λ b. not (holds b)) block) };
}

/// What `outside` tells of the sixteen bytes from `at` on. None where fewer stand there.
#[inline(always)]
pub fn outside_at<C: ByteSet>(s: &[u8], at: usize) -> Option<u64>
    ensures mask { IfSome result (λ m. m ≡ mask_l (map (λ b. not (C.holds b)) (take 16 (drop at s.now)))) }
    ensures within { IfSome result (λ _. at + 16 ≤ length s.now) }
    ensures none { IfNone result (length s.now < at + 16) }
{
    if LANES <= s.len() && at <= s.len() - LANES {
        Some(C::outside(u8x16::from_slice(&s[at..])))
    } else {
        None
    }
}

/// Where the bytes of the set end that stand from `at` on; `at` itself, where none does.
#[inline(always)]
pub fn run_end<C: ByteSet>(s: &[u8], at: usize) -> usize
    ensures { result ≡ at + prefix_len C.holds (drop at s.now) }
{
    let mut end = at;
    // Beside an iterator over blocks the place, which is the answer, would be counted all the same.
    while let Some(outside) = outside_at::<C>(s, end) {
        if outside != 0 {
            return end + outside.trailing_zeros() as usize;
        }
        end += LANES;
    }
    // `position` would take a slice, whose start may be past the end, and a place for none: no plainer.
    while end < s.len() && C::has(s[end]) {
        end += 1;
    }
    end
}

/// Whether sixteen bytes of the set stand from `at` on.
// `run_laws`: what follows for each byte from this, and from where a run ends.
#[tactic(auto, using(crate::proofs::theorems::Runs::run_laws))]
#[inline(always)]
pub fn block_at<C: ByteSet>(s: &[u8], at: usize) -> bool
    ensures value { result ≡ nat_le LANES (prefix_len C.holds (drop at s.now)) }
    ensures run_laws { RunLaws }
{
    matches!(outside_at::<C>(s, at), Some(0))
}

/// The bytes from LOW to HIGH, both included.
pub struct InRange<const LOW: u8, const HIGH: u8>;

impl<const LOW: u8, const HIGH: u8> ByteSet for InRange<LOW, HIGH> {
    ghost holds = { λ b. nat_le LOW b && nat_le b HIGH };

    #[inline(always)]
    fn has(b: u8) -> bool {
        LOW <= b && b <= HIGH
    }

    #[inline(always)]
    fn outside(block: u8x16) -> u64 {
        (block.simd_lt(u8x16::splat(LOW)) | block.simd_gt(u8x16::splat(HIGH))).to_bitmask()
    }
}

/// The bytes A and B, which may be the same.
pub struct OneOf<const A: u8, const B: u8>;

impl<const A: u8, const B: u8> ByteSet for OneOf<A, B> {
    ghost holds = { λ b. b == A || b == B };

    #[inline(always)]
    fn has(b: u8) -> bool {
        b == A || b == B
    }

    #[inline(always)]
    fn outside(block: u8x16) -> u64 {
        (block.simd_ne(u8x16::splat(A)) & block.simd_ne(u8x16::splat(B))).to_bitmask()
    }
}

/// All bytes but A, B, C and D, of which some may be the same.
pub struct NoneOf<const A: u8, const B: u8, const C: u8, const D: u8>;

impl<const A: u8, const B: u8, const C: u8, const D: u8> ByteSet for NoneOf<A, B, C, D> {
    ghost holds = { λ b. not (b == A || b == B || b == C || b == D) };

    #[inline(always)]
    fn has(b: u8) -> bool {
        b != A && b != B && b != C && b != D
    }

    #[inline(always)]
    fn outside(block: u8x16) -> u64 {
        (block.simd_eq(u8x16::splat(A))
            | block.simd_eq(u8x16::splat(B))
            | block.simd_eq(u8x16::splat(C))
            | block.simd_eq(u8x16::splat(D))).to_bitmask()
    }
}
