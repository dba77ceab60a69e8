// Nothing to compile: the crate is its definitions (specs/) and theorems (proofs/).
#![tactic(auto)]
