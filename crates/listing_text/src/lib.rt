// The text of the listing program. RULES (docs/RULES.md), "Listing".
#![tactic(auto)]

mod lines;
mod text;

pub use text::{MOST_BYTES, MOST_TEXT, case_text, listing};
