// Direction marks: REQUESTS (docs/REQUESTS.md), "Direction marks".
ghost use Rattle.std.specs.Prelude.{◌≡◌};
ghost use Rattle.chars.specs.paper.Classes.{isMark};

/// Whether c is a direction mark, U+202A to U+202E or U+2066 to U+2069.
#[tactic(auto, unfolding(crate::specs::paper::Classes::isMark))]
pub fn is_mark(c: u32) -> bool
    ensures { result ≡ isMark c }
{
    matches!(c, 0x202A..=0x202E | 0x2066..=0x2069)
}
