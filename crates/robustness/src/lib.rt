// No code: what robust and not robust mean (specs/), and the theorems about runs (proofs/). Main results:
// no_witness_robust (Robust), witness_not_robust (NotRobust), not_both and robust_has_no_witness (Exclude).
#![tactic(auto)]
