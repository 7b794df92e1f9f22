// The character classes of RULES, "Characters": all four answers on a code together, by masks.
ghost use Rattle.std.specs.Prelude.{◌≡◌, ◌+◌, ◌*◌, ◌<◌};
ghost use Rattle.chars.specs.code.Masks.{inMask};
ghost use Rattle.chars.specs.code.Classes.{answers, bitIn};
ghost use Rattle.chars.specs.promises.Codes.{CodeLaws};
ghost use Rattle.chars.specs.promises.Classes.{ClassLaws};

use crate::masks::{BLOCKS, ID_CHARS, ID_STARTS, OP_SIGNS, PRINTABLES};

// The last code that the masks speak of.
const LAST: u32 = 0xFFFF;

/// What the four classes say of a character.
#[derive(Clone, Copy, Debug, PartialEq, Eq)]
pub struct Classes {
    /// May it start an identifier?
    pub id_start: bool,
    /// May it continue one?
    pub id_char: bool,
    /// Is it an operator sign?
    pub op_sign: bool,
    /// Is it printable?
    pub printable: bool,
}

impl Classes {
    /// In none: every character above U+FFFF.
    pub const NONE: Classes = Classes {
        id_start: false,
        id_char: false,
        op_sign: false,
        printable: false,
    };
}

// Whether the class of these masks has a code: of 64 codes each block, this one's at a place of it.
#[inline(always)]
fn has(masks: &[u64; 176], block: usize, place: u32) -> bool
    requires block { block < 1024 }
    requires place { place < 64 }
    ensures { result ≡ inMask masks.now BLOCKS block place }
{
    (masks[BLOCKS[block] as usize] >> place as u64) % 2 == 1
}

/// The answers on a code up to U+FFFF, told by its block of 64 codes and its place there: so UTF-8 gives a code, and no code is put together first.
#[inline(always)]
pub fn classes_at(block: usize, place: u32) -> Classes
    requires block { block < 1024 }
    requires place { place < 64 }
    ensures { result ≡ answers (64 * block + place) }
{
    Classes {
        id_start: has(&ID_STARTS, block, place),
        id_char: has(&ID_CHARS, block, place),
        op_sign: has(&OP_SIGNS, block, place),
        printable: has(&PRINTABLES, block, place),
    }
}

/// The answers on a code.
// `class_laws`: what the classes exclude of each other, that the tables ascend, and that the masks say what they say; `code_laws`: what is computed at
// a few codes is carried to a code that is one of them.
#[tactic(auto, using(crate::proofs::theorems::Promises::code_laws, crate::proofs::theorems::Promises::told))]
pub fn classes_of(c: u32) -> Classes
    ensures value { result ≡ answers c }
    ensures class_laws { ClassLaws }
    ensures code_laws { CodeLaws }
{
    if c <= LAST {
        return classes_at((c / 64) as usize, c % 64);
    }
    Classes::NONE
}

/// Whether the byte's bit is set in one of two masks, for the codes up to 0x3F and from 0x40 to 0x7F: a set of ASCII characters by two tests.
// `code_laws`: what is computed at a few codes is carried to a code that is one of them, and to a set of them as two masks.
#[tactic(auto, using(crate::proofs::theorems::Promises::code_laws), unfolding(crate::specs::code::Classes::bitIn))]
pub fn has_bit(b: u8, low: u64, high: u64) -> bool
    ensures value { result ≡ bitIn low high b }
    ensures code_laws { CodeLaws }
{
    match b {
        0x00..=0x3F => (low >> b as u64) % 2 == 1,
        0x40..=0x7F => (high >> (b as u64 - 0x40)) % 2 == 1,
        _ => false,
    }
}
