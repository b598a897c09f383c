// Computed cases for the definitions of `rules`, a long chain of format 5s (specs/); this crate has no code.
#![tactic(auto)]
