// A whole roll: how many tokens it holds, or the first refusal.
ghost use Rattle.std.specs.Prelude.{◌≡◌};
ghost use Rattle.rolls.specs.computed.Roll.{isEof, readRoll};
ghost use Rattle.rolls.specs.code.Roll.{counted, countOf};

use crate::record::{RollCursor, read_token};
use crate::refusal::Refused;
use token::kinds::TokenKind;

fn is_eof(kind: TokenKind) -> bool
    ensures { result ≡ isEof kind }
{
    matches!(kind, TokenKind::Eof)
}

/// How many tokens the roll holds, read record by record from the first, or the first refusal.
#[tactic(auto, using(crate::proofs::roll::Laws::turn), unfolding(crate::specs::computed::Roll::readRoll))]
pub fn read_roll(roll: &[u8]) -> Result<usize, Refused>
    ensures { countOf result ≡ counted 0 (readRoll roll.now) }
{
    let mut c = RollCursor { at: 0, previous: 0 };
    let mut count: usize = 0;
    // Each record says itself where the next one starts.
    loop {
        let found = read_token(roll, c)?;
        count += 1;
        if is_eof(found.kind) {
            return Ok(count);
        }
        c = found.next;
    }
}
