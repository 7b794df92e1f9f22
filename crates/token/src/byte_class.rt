// What a byte is, by a table. A class is a number whose order and bits say more:
//
//     16 to 32   one of the nine signs: twice its kind's number       64   a digit
//     34         a space or tab                                       80   an id start; 81 `$`, 82 the first letter of one of the nine words
//     36         what begins no token                                 129  a quote
//     38         CR                                                   130  past ASCII
//     40         `'`                                                  142  `/`
//     42         a backtick                                           160  another operator sign; 161 a backslash
//     45         LF                                                   162  `:`, `=`, `#` or `@`: the first sign of an operator that is a keyword
//
// Odd are the four that do not stand for themselves in every string. The bit of weight 64 is set for what goes on with a word. From 128 on is what
// may make more of a word or a run that it follows directly.
ghost use Rattle.std.specs.Prelude.{◌≡◌, ◌+◌, ◌*◌};
ghost use Rattle.token.specs.paper.Records.{headLength};
ghost use Rattle.token.specs.code.ByteClass.{classOf, classAt, upToBlank, startsWord, inWord, asksMore, inOperator, isSign, inRun, isOrdinary, inLineEnd};

use crate::cursor::byte_at;
use crate::kinds::TokenKind;

static CLASSES: [u8; 256] = [
    36, 36, 36, 36, 36, 36, 36, 36, 36, 34, 45, 36, 36, 38, 36, 36, 36, 36, 36, 36, 36, 36, 36, 36,
    36, 36, 36, 36, 36, 36, 36, 36, 34, 160, 129, 162, 81, 160, 160, 40, 16, 18, 160, 160, 28, 160,
    32, 142, 64, 64, 64, 64, 64, 64, 64, 64, 64, 64, 162, 30, 160, 162, 160, 160, 162, 80, 80, 80,
    80, 80, 80, 80, 80, 80, 80, 80, 80, 80, 80, 80, 80, 80, 80, 80, 80, 80, 80, 80, 80, 80, 80, 20,
    161, 22, 160, 80, 42, 80, 80, 82, 80, 82, 82, 80, 80, 82, 80, 80, 80, 82, 80, 80, 80, 80, 82,
    80, 82, 80, 80, 80, 80, 80, 80, 24, 160, 26, 160, 36, 130, 130, 130, 130, 130, 130, 130, 130,
    130, 130, 130, 130, 130, 130, 130, 130, 130, 130, 130, 130, 130, 130, 130, 130, 130, 130, 130,
    130, 130, 130, 130, 130, 130, 130, 130, 130, 130, 130, 130, 130, 130, 130, 130, 130, 130, 130,
    130, 130, 130, 130, 130, 130, 130, 130, 130, 130, 130, 130, 130, 130, 130, 130, 130, 130, 130,
    130, 130, 130, 130, 130, 130, 130, 130, 130, 130, 130, 130, 130, 130, 130, 130, 130, 130, 130,
    130, 130, 130, 130, 130, 130, 130, 130, 130, 130, 130, 130, 130, 130, 130, 130, 130, 130, 130,
    130, 130, 130, 130, 130, 130, 130, 130, 130, 130, 130, 130, 130, 130, 130, 130, 130, 130, 130,
    130, 130, 130, 130, 130, 130,
];

/// What a byte is. A number and no enum: its order and bits answer each test below by one instruction, where an enum takes a table or a search.
#[derive(Clone, Copy, Debug, PartialEq, Eq)]
pub struct Class {
    number: u8,
}

impl Class {
    pub const BLANK: Class = Class { number: 34 };

    pub const CR: Class = Class { number: 38 };

    pub const TICK: Class = Class { number: 40 };

    pub const BACKTICK: Class = Class { number: 42 };

    pub const LF: Class = Class { number: 45 };

    pub const DIGIT: Class = Class { number: 64 };

    pub const START: Class = Class { number: 80 };

    pub const DOLLAR: Class = Class { number: 81 };

    pub const KEYWORD: Class = Class { number: 82 };

    pub const QUOTE: Class = Class { number: 129 };

    pub const WIDE: Class = Class { number: 130 };

    pub const SLASH: Class = Class { number: 142 };

    pub const SIGN: Class = Class { number: 160 };

    pub const BACKSLASH: Class = Class { number: 161 };

    pub const SIGN_KEYWORD: Class = Class { number: 162 };

    /// The class of a byte.
    pub fn of(b: u8) -> Class
        ensures { result.number ≡ classOf b }
    {
        Class {
            number: CLASSES[b as usize],
        }
    }

    /// The class of the byte at a place; past the end that of 0, with which no token begins.
    pub fn at(s: &[u8], at: usize) -> Class
        ensures { result.number ≡ classAt s.now at }
    {
        Class::of(byte_at(s, at))
    }

    /// One of the nine signs, or a blank?
    pub fn is_sign(self) -> bool
        ensures { result ≡ upToBlank self.number }
    {
        self.number <= Class::BLANK.number
    }

    /// An ASCII id start, where no sign stands?
    pub fn starts_word(self) -> bool
        ensures { result ≡ startsWord self.number }
    {
        self.number / 16 % 2 == 1
    }

    /// An ASCII id character or `_`?
    pub fn in_word(self) -> bool
        ensures { result ≡ inWord self.number }
    {
        self.number / 64 % 2 == 1
    }

    /// A quote, past ASCII, or an operator sign: may it make more of the word or run that it follows directly?
    pub fn asks_more(self) -> bool
        ensures { result ≡ asksMore self.number }
    {
        128 <= self.number
    }

    /// Past ASCII or an operator sign: may it make more of the run that it follows directly?
    pub fn in_operator(self) -> bool
        ensures { result ≡ inOperator self.number }
    {
        Class::WIDE.number <= self.number
    }

    /// An ASCII operator sign?
    pub fn is_op(self) -> bool
        ensures { result ≡ isSign self.number }
    {
        Class::SLASH.number <= self.number
    }

    /// One other than `/`, which may begin a comment?
    pub fn in_run(self) -> bool
        ensures { result ≡ inRun self.number }
    {
        Class::SIGN.number <= self.number
    }

    /// A byte that stands for itself in every string? An LF, a quote, a `$` and a backslash don't.
    pub fn is_ordinary(self) -> bool
        ensures { result ≡ isOrdinary self.number }
    {
        self.number % 2 == 0
    }

    /// LF or CR, of which line ends are made?
    pub fn in_line_end(self) -> bool
        ensures { result ≡ inLineEnd self.number }
    {
        self == Class::LF || self == Class::CR
    }

    /// Length and kind of a sign's record, as one number. A sign's class is twice its kind's number, and the kind stands in the upper two bytes: so
    /// one product makes the head, and no kind has to be looked up.
    pub fn sign_head(self) -> u32
        ensures { result ≡ headLength + 32768 * self.number }
    {
        TokenKind::HEAD_LENGTH as u32 + 32768 * (self.number as u32)
    }
}
