//! The words of languages over lists, which tokens and grammar share, and the two theories by which machines and readers
//! are proved to answer them.
//!
//! Nothing here runs. `specs/` says what the longest front of a text is that begins a word, and what a whole text spells;
//! `proofs/` has what the crates above cite: a machine whose states are what is left of a language finds that front
//! (`Walks`), and so does a reader that looks one symbol ahead (`Exact`, `Complete`, `Verdict`).
#![tactic(auto)]
