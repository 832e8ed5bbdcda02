//! How the grammar is read: readers over lists of tokens, one token ahead, which a parser is to equal function by function.
//!
//! Nothing here runs. `specs/` has the readers, tied by a depth; `proofs/` shows that they read the grammar: what they take
//! is spelled by the tree that they give, what stands before a token at which they are stuck begins a word, and each word is
//! read.
#![tactic(auto)]
