// No code: execution graphs, SC and release/acquire runs, and witnesses. specs/ is what a reader must believe. Main
// results: sc_order_acyclic, sc_run_is_ra_run and at_most_one_sc_step (Reachable), dec_sc_run (Schedules), dec_witness
// (Choices).
#![tactic(auto)]
