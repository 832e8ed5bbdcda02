//! What the forms of expressions and of FROM do with outcomes, values and rows: the words in which both a text and a
//! resolved tree say what they mean.
#![tactic(auto)]
