// Little-endian numbers in bytes: written, and read back.
#![tactic(auto)]

pub mod write; // stores into lent bytes
pub mod read; // numbers at a place of lent bytes
