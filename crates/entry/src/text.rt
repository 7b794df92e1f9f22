// Token text: the part of a script from start to end. RULES, "Token text".
ghost use Rattle.std.specs.Prelude.{◌≡◌};
ghost use Rattle.entry.specs.paper.TokenText.{insideCharacter, hasText, tokenText, TextPart, textNumber};

// Does the place lie inside a character?
fn is_inside(script: &[u8], at: usize) -> bool
    ensures { result ≡ insideCharacter script.now at }
{
    at < script.len() && matches!(script[at], 0x80..=0xBF)
}

/// Whether start to end is a part of the script between characters: no is refusal 21.
#[tactic(auto, unfolding(crate::specs::paper::TokenText::hasText))]
pub fn has_text(script: &[u8], start: usize, end: usize) -> bool
    ensures { result ≡ hasText script.now start end }
{
    start <= end && end <= script.len() && !is_inside(script, start) && !is_inside(script, end)
}

/// The part itself; where 21 is met the empty part at 0. The first clause is of the bytes, the second also of where they are.
#[tactic(auto, using(crate::proofs::text::Laws::text_within), unfolding(crate::specs::paper::TokenText::tokenText))]
pub fn token_text(script: &[u8], start: usize, end: usize) -> &[u8]
    ensures result_value { result.now ≡ tokenText script.now start end }
    ensures text_part { TextPart script.entry start end result }
{
    if has_text(script, start, end) {
        return &script[start..end];
    }
    &script[..0]
}

/// The same as a number, for hosts, who have the bytes: 0, or 21.
pub fn text_number(script: &[u8], start: u32, end: u32) -> u32
    ensures { result ≡ textNumber script.now start end }
{
    if has_text(script, start as usize, end as usize) {
        0
    } else {
        21
    }
}
