//! What a text means: scopes, typing and the environment semantics of all forms but grouping, set operations, order, lambdas
//! and PIVOT, as definitions. They are to take the place of those of the first form; no code stands on them yet.
#![tactic(auto)]
