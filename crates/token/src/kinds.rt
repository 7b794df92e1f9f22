// Keywords and token kinds, with the numbers and lengths of their records: RULES, "Kinds" and "Record".
ghost use Rattle.std.specs.Prelude.{◌≡◌};
ghost use Rattle.token.specs.paper.Kinds.{kwNumber};
ghost use Rattle.token.specs.paper.Records.{bit};
ghost use Rattle.token.specs.code.Form.{formOf, plainForm, Known};
ghost use Rattle.token.specs.code.Keyword.{keywordBy};
ghost use Rattle.token.specs.declared.kinds.TokenKind.TheVariants as tk;

#[derive(Clone, Copy, Debug, PartialEq, Eq)]
pub enum Kw {
    Case,
    Else,
    False,
    Function,
    If,
    Match,
    Return,
    Then,
    True,
    Colon,
    FatArrow,
    Assign,
    Hash,
    At,
}

#[derive(Clone, Copy, Debug, PartialEq, Eq)]
pub enum TokenKind {
    Ident,
    OpId,
    BacktickId,
    IntLit(u32),
    LongLit(u64),
    Str { from: usize, to: usize },
    CharSym,
    LParen,
    RParen,
    LBracket,
    RBracket,
    LBrace,
    RBrace,
    Comma,
    Semi,
    Dot,
    Newline(bool),
    Eof,
    Kw(Kw),
}

impl Kw {
    pub const CASE: u16 = 32;

    pub const ELSE: u16 = 33;

    pub const FALSE: u16 = 34;

    pub const FUNCTION: u16 = 35;

    pub const IF: u16 = 36;

    pub const MATCH: u16 = 37;

    pub const RETURN: u16 = 38;

    pub const THEN: u16 = 39;

    pub const TRUE: u16 = 40;

    pub const COLON: u16 = 41;

    pub const FAT_ARROW: u16 = 42;

    pub const ASSIGN: u16 = 43;

    pub const HASH: u16 = 44;

    pub const AT: u16 = 45;

    pub fn number(self) -> u16
        ensures { result ≡ kwNumber self }
    {
        match self {
            Kw::Case => Kw::CASE,
            Kw::Else => Kw::ELSE,
            Kw::False => Kw::FALSE,
            Kw::Function => Kw::FUNCTION,
            Kw::If => Kw::IF,
            Kw::Match => Kw::MATCH,
            Kw::Return => Kw::RETURN,
            Kw::Then => Kw::THEN,
            Kw::True => Kw::TRUE,
            Kw::Colon => Kw::COLON,
            Kw::FatArrow => Kw::FAT_ARROW,
            Kw::Assign => Kw::ASSIGN,
            Kw::Hash => Kw::HASH,
            Kw::At => Kw::AT,
        }
    }
}

impl TokenKind {
    pub const IDENT: u16 = 1;

    pub const OP_ID: u16 = 2;

    pub const BACKTICK_ID: u16 = 3;

    pub const INT_LIT: u16 = 4;

    pub const LONG_LIT: u16 = 5;

    pub const STR: u16 = 6;

    pub const CHAR_SYM: u16 = 7;

    pub const L_PAREN: u16 = 8;

    pub const R_PAREN: u16 = 9;

    pub const L_BRACKET: u16 = 10;

    pub const R_BRACKET: u16 = 11;

    pub const L_BRACE: u16 = 12;

    pub const R_BRACE: u16 = 13;

    pub const COMMA: u16 = 14;

    pub const SEMI: u16 = 15;

    pub const DOT: u16 = 16;

    pub const NEWLINE: u16 = 17;

    pub const EOF: u16 = 18;

    // The length of a record, all of it: 13 bytes without values. With them:
    pub const HEAD_LENGTH: u16 = 13;

    pub const INT_LIT_LENGTH: u16 = TokenKind::HEAD_LENGTH + 4;

    pub const LONG_LIT_LENGTH: u16 = TokenKind::HEAD_LENGTH + 8;

    pub const STR_LENGTH: u16 = TokenKind::HEAD_LENGTH + 8;

    pub const NEWLINE_LENGTH: u16 = TokenKind::HEAD_LENGTH + 1;

    #[tactic(auto, unfolding(crate::specs::code::Form::formOf, crate::specs::paper::Records::recordLength, crate::specs::paper::Records::values))]
    pub fn form(self) -> Form
        ensures value { result ≡ formOf self }
        ensures known { Known result.length }
    {
        match self {
            TokenKind::IntLit(v) => Form::int(v as u64),
            TokenKind::LongLit(v) => Form::long(v),
            TokenKind::Str { from, to } => Form::span(from, to),
            TokenKind::Newline(mark) => Form::line(mark),
            TokenKind::Ident => Form::plain(TokenKind::IDENT),
            TokenKind::OpId => Form::plain(TokenKind::OP_ID),
            TokenKind::BacktickId => Form::plain(TokenKind::BACKTICK_ID),
            TokenKind::CharSym => Form::plain(TokenKind::CHAR_SYM),
            TokenKind::LParen => Form::plain(TokenKind::L_PAREN),
            TokenKind::RParen => Form::plain(TokenKind::R_PAREN),
            TokenKind::LBracket => Form::plain(TokenKind::L_BRACKET),
            TokenKind::RBracket => Form::plain(TokenKind::R_BRACKET),
            TokenKind::LBrace => Form::plain(TokenKind::L_BRACE),
            TokenKind::RBrace => Form::plain(TokenKind::R_BRACE),
            TokenKind::Comma => Form::plain(TokenKind::COMMA),
            TokenKind::Semi => Form::plain(TokenKind::SEMI),
            TokenKind::Dot => Form::plain(TokenKind::DOT),
            TokenKind::Eof => Form::plain(TokenKind::EOF),
            TokenKind::Kw(k) => Form::plain(k.number()),
        }
    }
}

// What a record has of its kind: the kind's number, the length of the whole record, and the values as one number, the first in the lowest bytes.
#[derive(Clone, Copy, Debug, PartialEq, Eq)]
pub struct Form {
    pub number: u16,
    pub length: u16,
    pub values: u64,
}

impl Form {
    /// A kind without values, by its number, which is all that its record has of it.
    #[tactic(auto, using(crate::proofs::form::Laws::known))]
    pub fn plain(number: u16) -> Form
        ensures value { result ≡ plainForm number }
        ensures known { Known result.length }
    {
        Form {
            number,
            length: TokenKind::HEAD_LENGTH,
            values: 0,
        }
    }

    #[tactic(auto, using(crate::proofs::form::Shapes::forms))]
    pub fn int(v: u64) -> Form
        ensures value { result ≡ formOf (tk.IntLit v) }
        ensures known { Known result.length }
    {
        Form {
            number: TokenKind::INT_LIT,
            length: TokenKind::INT_LIT_LENGTH,
            values: v,
        }
    }

    #[tactic(auto, using(crate::proofs::form::Shapes::forms))]
    pub fn long(v: u64) -> Form
        ensures value { result ≡ formOf (tk.LongLit v) }
        ensures known { Known result.length }
    {
        Form {
            number: TokenKind::LONG_LIT,
            length: TokenKind::LONG_LIT_LENGTH,
            values: v,
        }
    }

    /// A string, by its content's start and end, of each the lower four bytes. `as u32` is refused here, where a place can have more.
    #[tactic(auto, using(crate::proofs::form::Shapes::forms))]
    pub fn span(from: usize, to: usize) -> Form
        ensures value { result ≡ formOf (tk.Str from to) }
        ensures known { Known result.length }
    {
        Form {
            number: TokenKind::STR,
            length: TokenKind::STR_LENGTH,
            values: (from % 4294967296) as u64 + (to % 4294967296) as u64 * 4294967296,
        }
    }

    #[tactic(auto, using(crate::proofs::form::Shapes::forms))]
    pub fn line(mark: bool) -> Form
        ensures value { result ≡ formOf (tk.Newline mark) }
        ensures known { Known result.length }
    {
        Form {
            number: TokenKind::NEWLINE,
            length: TokenKind::NEWLINE_LENGTH,
            values: u64::from(bit_of(mark)),
        }
    }
}

pub fn bit_of(b: bool) -> u8
    ensures { result ≡ bit b }
{
    u8::from(b)
}

/// The keyword of a kind's number; none, where the kind is no keyword.
#[tactic(auto, unfolding(crate::specs::code::Keyword::keywordBy, crate::specs::code::Keyword::keywordAmong))]
pub fn keyword_of(number: u16) -> Option<Kw>
    ensures { result ≡ keywordBy number }
{
    match number {
        Kw::CASE => Some(Kw::Case),
        Kw::ELSE => Some(Kw::Else),
        Kw::FALSE => Some(Kw::False),
        Kw::FUNCTION => Some(Kw::Function),
        Kw::IF => Some(Kw::If),
        Kw::MATCH => Some(Kw::Match),
        Kw::RETURN => Some(Kw::Return),
        Kw::THEN => Some(Kw::Then),
        Kw::TRUE => Some(Kw::True),
        Kw::COLON => Some(Kw::Colon),
        Kw::FAT_ARROW => Some(Kw::FatArrow),
        Kw::ASSIGN => Some(Kw::Assign),
        Kw::HASH => Some(Kw::Hash),
        Kw::AT => Some(Kw::At),
        _ => None,
    }
}
