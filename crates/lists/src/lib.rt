// No code: laws on lists that the library lacks.
#![tactic(auto)]
