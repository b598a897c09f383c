// What a row of a computed case says of the definitions of `rules` (specs/); this crate has no code.
#![tactic(auto)]
