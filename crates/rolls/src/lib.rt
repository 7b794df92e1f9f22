// Stored records read back, without the script. REQUESTS (docs/REQUESTS.md), "Stored rolls". The crate `ergo` exports the host's functions.
#![tactic(auto)]

pub mod refusal; // 22, 23 and 24
pub mod record; // one record: its token and the next place, or a refusal
pub mod roll; // the whole roll
pub mod host; // the answer blocks
