// Computed cases for the definitions of `rules`, document 02 (specs/); this crate has no code.
#![tactic(auto)]
