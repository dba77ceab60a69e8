// Least walks of started fields: definitions and theorems, with no code.
#![tactic(auto)]
