// No code: what a situation is, which one a schedule reaches, and which witness is named. Main results: exact_start
// (StartExact), exact_step (StepOn), readable_exact (ReadableExact), named_on_situation, same_witnesses (TestNamed),
// run_bound (Bounded).
#![tactic(auto)]
