// What hosts call: limits, the order of refusals, the answer block, measuring, token text. RULES (docs/RULES.md), "Refusals of a call" to "Token text";
// REQUESTS (docs/REQUESTS.md), "Limits", "Measuring" and "Direction marks". The crate `ergo` exports these functions.
#![tactic(auto)]

pub mod limits; // how many bytes and tokens a script may have
pub mod refusal; // 17, 18, 27, 28 and 29
pub mod check; // what is asked of a script before it is read
pub mod host; // a script in, its records and the answer block out
pub mod measure; // what a script's records need, none of them stored
pub mod text; // token text
