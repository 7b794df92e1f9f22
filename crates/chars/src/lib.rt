// Bytes into characters, and the classes of a character: RULES (docs/RULES.md), "Characters".
#![tactic(auto)]

pub mod tables; // range tables of Unicode 16.0
pub mod masks; // the four classes, by blocks of 64 codes
pub mod marks; // direction marks
pub mod thirds; // tables of the characters of three bytes that are none
pub mod utf8; // one character at a byte offset; the longest valid prefix
pub mod runs; // where a run of bytes of a set ends, sixteen bytes at a time
pub mod classes; // id start, id character, operator sign, printable
pub mod text; // a script read character by character
