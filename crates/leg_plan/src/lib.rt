// Legs: definitions and theorems, with no code. The code that plans a leg stands above.
#![tactic(auto)]
