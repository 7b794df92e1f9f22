// Comment wording stays out of the records: a theorem on readings and on what a host sees, with no code. REQUESTS (docs/REQUESTS.md), "Comment wording".
#![tactic(auto)]

ghost use Rattle.wording.specs.Theorems.{WordingTheorems};

/// Does nothing. Its contract is the theorem, so that a check which cannot prove it fails.
#[tactic(auto, using(crate::proofs::Theorems::wording_theorems))]
pub fn wording_stays_out()
    ensures wording_theorems { WordingTheorems }
{}
