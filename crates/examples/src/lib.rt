// Worked examples of the definitions of `rules` (specs/); this crate has no code.
#![tactic(auto)]
