// The records of a script: measured, and stored where they fit. RULES, "Records of a script".
ghost use Rattle.std.specs.Prelude.{◌≡◌, ◌≤◌, length, IfOk, IfErr};
ghost use Rattle.std.proofs.lemmas.List.Edits.{sets};
ghost use Rattle.token.specs.computed.Answer.{answer, refused};
ghost use Rattle.token.specs.paper.Records.{mostBytes, recordBytes, records};
ghost use Rattle.token.specs.code.Records.{measuredOf, Needs, Held, Fits, begun, storedFrom, tokensIn};
ghost use Rattle.token.specs.code.Refusal.{refusalNumber};

use crate::counts::{Counts, Need};
use crate::refusal::Refused;
use crate::walk::walk;
use words::write::copy;

// One walk over the script: what its records need, with each record stored that fits, up to the end of script or to what is refused.
fn walk_script(out: &mut [u8], s: &[u8]) -> Result<Need, Refused>
    requires { length s.now ≤ mostBytes }
    ensures value { result ≡ measuredOf (answer s.now) }
    ensures out_after { out.new ≡ storedFrom s.now begun out.old }
{
    let mut counts = Counts::new();
    walk(out, s, &mut counts)
}

/// What the records of a script need, or why it has none. `scratch` then has each record that fits into it, before a refusal too.
#[tactic(auto, using(crate::proofs::records::Told::told))]
pub fn measure(scratch: &mut [u8], s: &[u8]) -> Result<Need, Refused>
    requires { length s.now ≤ mostBytes }
    ensures value { result ≡ measuredOf (answer s.now) }
    ensures needs { IfOk result (λ need. Needs (answer s.now) need) }
    ensures refusal { IfErr result (λ e. answer s.now ≡ refused (refusalNumber e.what) e.place) }
    ensures scratch_after { scratch.new ≡ storedFrom s.now begun scratch.old }
    ensures held { IfOk result (λ need. Held (answer s.now) need scratch.new) }
{
    walk_script(scratch, s)
}

/// The records of a script that has tokens, from the buffer's start on: copied, where `scratch` has them, else by another walk. `need.bytes` and what
/// `scratch` holds are as `measure` left them; of `need` nothing else is asked.
pub fn write(out: &mut [u8], s: &[u8], scratch: &[u8], need: Need)
    requires within { length s.now ≤ mostBytes }
    requires fits { Fits (answer s.now) (length out.old) }
    requires bytes { need.bytes ≡ recordBytes (tokensIn (answer s.now)) }
    requires held { Held (answer s.now) need scratch.now }
    ensures { out.new ≡ sets out.old 0 (records (tokensIn (answer s.now))) }
{
    if need.bytes <= scratch.len() {
        copy(out, scratch, need.bytes);
        return;
    }
    write_walk(out, s);
}

// The same by another walk.
#[tactic(auto, using(crate::proofs::records::Measures::fitted))]
fn write_walk(out: &mut [u8], s: &[u8])
    requires within { length s.now ≤ mostBytes }
    requires fits { Fits (answer s.now) (length out.old) }
    ensures { out.new ≡ sets out.old 0 (records (tokensIn (answer s.now))) }
{
    let _ = walk_script(out, s); // it has tokens, so nothing is refused, and what they need is known
}
