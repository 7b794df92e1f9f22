// What is asked of every script before it is read: its length, that it is UTF-8, and that no direction mark stands in it.
ghost use Rattle.std.specs.Prelude.{◌≡◌, ◌≤◌, length, OnOk};
ghost use Rattle.token.specs.paper.Records.{mostBytes};
ghost use Rattle.entry.specs.computed.Check.{checkOf, cleanOf, markOf};

use crate::refusal::{Refusal, Refused};

pub const MOST_BYTES: usize = 16777216;

// 17, 27 and 18; of a script that passes them, the place of its first direction mark, if it has one.
#[inline(always)] // for short scripts: a call hands its answer on through memory
#[tactic(auto, unfolding(crate::specs::computed::Check::checkOf, crate::specs::computed::Check::markOf, chars::specs::computed::Marks::checked))]
fn check_bytes(script: &[u8], most: usize) -> Result<Option<usize>, Refused>
    ensures { result ≡ markOf most script.now }
{
    if MOST_BYTES < script.len() {
        return Err(Refusal::TooLong.at(0));
    }
    if most < script.len() {
        return Err(Refusal::OverLimit.at(0));
    }
    match chars::utf8::check(script) {
        Ok(mark) => Ok(mark),
        Err(valid) => Err(Refusal::NotUtf8.at(valid)),
    }
}

/// 17, at 0, where the script is too long whatever the limit; 27, at 0, where it has more bytes than the limit; 18, at the length of its longest valid
/// prefix, where it is not UTF-8.
#[inline(always)]
#[tactic(auto, using(crate::proofs::host::Checks::text_ok, crate::proofs::host::Checks::text_err, crate::proofs::host::Checks::text_within))]
pub fn check_text(script: &[u8], most: usize) -> Result<(), Refused>
    ensures value { result ≡ checkOf most script.now }
    ensures in_limit { OnOk result (length script.now ≤ mostBytes) }
{
    check_bytes(script, most)?;
    Ok(())
}

/// The same, and then 29, at the first direction mark, where the script has one.
#[inline(always)]
#[tactic(auto, using(crate::proofs::host::Checks::text_within), unfolding(crate::specs::computed::Check::cleanOf))]
pub fn check_clean(script: &[u8], most: usize) -> Result<(), Refused>
    ensures value { result ≡ cleanOf most script.now }
    ensures in_limit { OnOk result (length script.now ≤ mostBytes) }
{
    match check_bytes(script, most)? {
        Some(mark) => Err(Refusal::DirectionMark.at(mark)),
        None => Ok(()),
    }
}
