//! What comes out of nests, by plain lists: of items, of values and of bytes. Words and lemmas, in `specs/` and `proofs/`, and no code.
#![tactic(auto)]
