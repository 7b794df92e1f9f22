// The host's entry. RULES, "Order of refusals" and "Answer"; REQUESTS, "Limits" and "Direction marks".
ghost use Rattle.std.specs.Prelude.{◌≡◌, ℕ, ◌≤◌, length, IfOk, IfErr};
ghost use Rattle.token.specs.computed.Answer.{answer};
ghost use Rattle.token.specs.code.Records.{Held};
ghost use Rattle.entry.specs.paper.Refusals.{refusalNumber};
ghost use Rattle.entry.specs.paper.Limits.{compiler, contact};
ghost use Rattle.entry.specs.paper.Host.{seen};
ghost use Rattle.entry.specs.computed.Host.{hostFor, hostOf, rejected, verdict};
ghost use Rattle.entry.specs.code.Host.{judgedOf, Judged, scratchOf};
ghost use Rattle.entry.specs.Theorems.{CompilerTheorems, ContactTheorems, HostTheorems};

use crate::check::check_clean;
use crate::limits::Limits;
use crate::refusal::{Refusal, Refused};
use token::counts::Need;
use token::records::{measure, write};
use words::write::{put_block, put_refused};

// Bytes on the stack for records that are stored before the script is known to be accepted, by the script's length: those of most scripts of at
// most 128 and 512 bytes fit into the first two, some 600 tokens into the last.
pub const BRIEF_SCRIPT: usize = 128;

pub const BRIEF_SCRATCH: usize = 512;

pub const SHORT_SCRIPT: usize = 512;

pub const SHORT_SCRATCH: usize = 2048;

pub const LONG_SCRATCH: usize = 8192;

/// What the records need, or the refusals 17, 27, 18, 29, 1 to 16, 28 in their order. `scratch` has the records that fit into it, where the script is
/// read.
#[inline(always)] // for short scripts: out of line it hands its answer on through memory
pub fn judge(scratch: &mut [u8], script: &[u8], limits: &Limits) -> Result<Need, Refused>
    ensures value { (room : ℕ) → result ≡ judgedOf (verdict limits.now script.now room) }
    ensures refusal { IfErr result (λ e. (room : ℕ) → verdict limits.now script.now room ≡ rejected (refusalNumber e.what) e.place) }
    ensures judged { IfOk result (λ need. Judged limits.now script.now need) }
    ensures held { IfOk result (λ need. Held (answer script.now) need scratch.new) }
    ensures scratch_after { scratch.new ≡ scratchOf limits.now script.now scratch.old }
{
    check_clean(script, limits.bytes)?;
    let need = measure(scratch, script)?;
    if limits.has_too_many(need.tokens) {
        return Err(Refusal::TooManyTokens.at(0));
    }
    Ok(need)
}

// 19 and 20 are told where they are met, as the host's own: in an enum they would be taken apart again at once.

// The answer, with a buffer for records that are stored before the script is known to be accepted. A script whose records fit in there is walked
// once.
fn tokenize_by(
    scratch: &mut [u8],
    script: &[u8],
    records: &mut [u8],
    answer: &mut [u8],
    limits: &Limits,
) -> u32
    requires { length answer.old ≡ 16 }
    ensures answer_after { seen result records.new answer.new ≡ hostFor limits.now script.now records.old answer.old }
    ensures scratch_after { scratch.new ≡ scratchOf limits.now script.now scratch.old }
{
    match judge(scratch, script, limits) {
        Err(refused) => put_refused(answer, refused.what.number(), refused.place),
        Ok(need) if records.len() < need.bytes => {
            put_block(answer, 19, 0, need.tokens, need.bytes);
            19
        }
        Ok(need) => {
            write(records, script, scratch, need);
            put_block(answer, 0, 0, need.tokens, need.bytes);
            0
        }
    }
}

// The same with a buffer of so many bytes on the stack, which is cleared in each call: a short script has a small one. Out of line, since the buffers
// of all three sizes lie in one frame where these functions are compiled into their caller. The limits are lent: by value they would be copied here.
#[inline(never)]
fn tokenize_with<const BYTES: usize>(
    script: &[u8],
    records: &mut [u8],
    answer: &mut [u8],
    limits: &Limits,
) -> u32
    requires sixteen { length answer.old ≡ 16 }
    requires on_stack { BYTES ≤ 9223372036854775807 }
    ensures { seen result records.new answer.new ≡ hostFor limits.now script.now records.old answer.old }
{
    let mut scratch = [0u8; BYTES];
    tokenize_by(&mut scratch, script, records, answer, limits)
}

/// Tokenizes a script within limits. The number is 0 where it is accepted: then the records stand at the buffer's start. Every refusal leaves the
/// buffer as it was. The first clause gives the number and every lent byte for all limits and lengths; the second says what follows: that these are what
/// is declared, that a host which lends enough is refused only where there is no reading, a direction mark stands or a limit is not kept, and the examples
/// of RULES and REQUESTS.
pub fn tokenize_within(script: &[u8], records: &mut [u8], answer: &mut [u8], limits: &Limits) -> u32
    ensures answer_after { seen result records.new answer.new ≡ hostFor limits.now script.now records.old answer.old }
    ensures host_theorems { HostTheorems limits.now script.now records.old answer.old }
{
    if answer.len() != 16 {
        return 20;
    }
    if script.len() <= BRIEF_SCRIPT {
        return tokenize_with::<BRIEF_SCRATCH>(script, records, answer, limits);
    }
    if script.len() <= SHORT_SCRIPT {
        return tokenize_with::<SHORT_SCRATCH>(script, records, answer, limits);
    }
    tokenize_with::<LONG_SCRATCH>(script, records, answer, limits)
}

/// Tokenizes a script for the compiler, as `tokenize_within` says: of at most 16,777,216 bytes, with any number of tokens, else refused by 17.
#[tactic(auto, using(crate::proofs::theorems::Hosts::compiler_theorems))]
pub fn tokenize(script: &[u8], records: &mut [u8], answer: &mut [u8]) -> u32
    ensures answer_after { seen result records.new answer.new ≡ hostOf script.now records.old answer.old }
    ensures host_theorems { HostTheorems compiler script.now records.old answer.old }
    ensures compiler_theorems { CompilerTheorems script.now records.old answer.old }
{
    tokenize_within(script, records, answer, &Limits::COMPILER)
}

/// Tokenizes a contact, a script in an entry of the address book, as `tokenize_within` says: of at most 4,096 bytes, with at most 512 tokens.
/// One of more bytes is refused by 27, over 16,777,216 by 17; one that has a reading with more tokens, by 28. 10,744 bytes are enough for its records.
#[tactic(auto, using(crate::proofs::theorems::Hosts::contact_theorems))]
pub fn tokenize_contact(script: &[u8], records: &mut [u8], answer: &mut [u8]) -> u32
    ensures answer_after { seen result records.new answer.new ≡ hostFor contact script.now records.old answer.old }
    ensures host_theorems { HostTheorems contact script.now records.old answer.old }
    ensures contact_theorems { ContactTheorems script.now records.old answer.old }
{
    tokenize_within(script, records, answer, &Limits::CONTACT)
}
