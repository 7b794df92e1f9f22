// From script bytes to token records: RULES (docs/RULES.md), "Pieces" to "Refusals".
#![tactic(auto)]

pub mod kinds; // keywords and token kinds, their record numbers and lengths
pub mod counts; // what the records of a script need
mod cursor; // a place in a script, and what stands there
pub mod refusal; // what a script is refused for, and where
mod piece; // what reading one piece answers
mod gap; // comments
mod digits; // digit runs and numbers
mod string; // strings and escapes
mod keyword; // keywords, by their bytes
mod ident; // identifiers, operators and backticks
mod charsym; // characters and symbols
pub mod form; // one record, stored and read back
mod byte_class; // what a byte is, by a table
mod names; // where words and runs of signs of ASCII end
mod walk; // from piece to piece, to the end of script or to what is refused
pub mod records; // the records, counted, and stored where they fit
