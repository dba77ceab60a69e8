// Followed arrows of a window sector: definitions and theorems, with no code.
#![tactic(auto)]
