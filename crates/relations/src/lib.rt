// No code: transitive closure of a relation, and its laws. Main results: dec_closure (Decide), closure_sink and
// sink_keeps_acyclic (Sink).
#![tactic(auto)]
