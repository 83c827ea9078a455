// The paper as definitions (specs/) and what follows from them (proofs/). It has no functions: each crate above is proved against it.
#![tactic(auto)]
