// What reading one piece answers.
use crate::cursor::Cursor;
use crate::kinds::TokenKind;
use crate::refusal::Refused;

/// A token with the cursor after it, or why none stands there.
pub type Piece = Result<(TokenKind, Cursor), Refused>;
