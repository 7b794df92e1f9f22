// Text put together in memory: what the programs that print one share. A text is a `Vec` of bytes, and each part is put behind what it holds.
#![tactic(auto)]

ghost use Rattle.std.specs.Prelude.{◌≡◌, ◌∷◌, ◌<◌, ◌≤◌, length, decimal};
ghost use Rattle.puts.specs.Digits.{glyph};
ghost use Rattle.puts.specs.Puts.{Puts};

use std::alloc::AllocError;

/// Puts a number in base ten behind a text.
pub fn put_number(text: &mut Vec<u8>, number: u64) -> Result<(), AllocError>
    ensures put { Puts text.old text.new result (decimal number) }
    ensures short { length (decimal number) ≤ 20 }
{
    let mut digits = itoa::Buffer::new();
    text.extend_from_slice(digits.format(number).as_bytes())
}

/// Puts a space and a number behind a text.
pub fn put_spaced(text: &mut Vec<u8>, number: u64) -> Result<(), AllocError>
    ensures { Puts text.old text.new result (0x20 ∷ decimal number) }
{
    text.push(b' ')?;
    put_number(text, number)
}

/// A hexadecimal digit in ASCII; `ten` is the letter for ten, `A` or `a`.
#[tactic(auto, unfolding(crate::specs::Digits::glyph))]
pub fn hex_digit(d: u8, ten: u8) -> u8
    requires digit { d < 16 }
    requires letter { ten ≤ 0x61 }
    ensures { result ≡ glyph d ten }
{
    if d < 10 { b'0' + d } else { ten + (d - 10) }
}
