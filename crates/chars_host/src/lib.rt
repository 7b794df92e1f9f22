// The functions of crates/chars for hosts written in C or Rust, and for the comparisons of compare/utf8. `rt lib`, in this
// crate's folder, makes the library, out/libchars_host.a. A slice is passed as a pointer and a length.
#![tactic(auto)]

ghost use Rattle.std.specs.Prelude.{◌≡◌};
ghost use Rattle.chars.specs.computed.Valid.{validPrefix};
ghost use Rattle.chars.specs.code.Utf8.{decodeAt};
ghost use Rattle.chars_host.specs.Packing.{bits, packed};

use chars::classes::classes_of;
use chars::utf8::Decoded;

// The length of the longest valid UTF-8 prefix.
#[unsafe(no_mangle)]
pub extern "C" fn chars_valid_prefix(s: &[u8]) -> usize
    ensures { result ≡ validPrefix s.now }
{
    chars::utf8::valid_prefix(s)
}

// The character that stands at a byte offset, its width times 2^32 and its code; 0 where none stands there.
#[unsafe(no_mangle)]
pub extern "C" fn chars_decode(s: &[u8], at: usize) -> u64
    ensures { result ≡ packed (decodeAt s.now at) }
{
    match chars::utf8::decode(s, at) {
        Some(Decoded { code, width, .. }) => (width as u64) << 32 | u64::from(code),
        None => 0,
    }
}

// The classes of a character: bit 0 id start, 1 id character, 2 operator sign, 3 printable.
#[unsafe(no_mangle)]
pub extern "C" fn chars_classes(c: u32) -> u32
    ensures { result ≡ bits c }
{
    let classes = classes_of(c);
    u32::from(classes.id_start)
        | u32::from(classes.id_char) << 1
        | u32::from(classes.op_sign) << 2
        | u32::from(classes.printable) << 3
}
