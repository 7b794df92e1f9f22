// Line and column beside the script: an index of line starts in lent numbers, and the line and column of a place. REQUESTS
// (docs/REQUESTS.md), "Lines and columns". The crate `ergo` exports the host's functions.
#![tactic(auto)]

mod count; // bytes of a range, counted
mod index; // where lines start
mod find; // the line of a place in an index, and its column
pub mod host; // the order of refusals, the answer blocks
