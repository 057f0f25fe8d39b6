// No code: the timestamp machine of source document 001 (specs/Memory.antt, Machine.antt), without graphs, and what is
// shown of it (specs/Claims.antt, Outcomes.antt). Main results: machine_is_ra and robust_is_state_robust (Claims),
// both_reads_old (StoreBuffering), both_reads_one (TwoWrites), no_old_data (MessagePassing).
#![tactic(auto)]
