// Computed cases for the definitions of `rules`, document 01 (specs/); this crate has no code.
#![tactic(auto)]
