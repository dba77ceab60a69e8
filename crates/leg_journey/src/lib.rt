// Following a leg's arrows over the whole floor: definitions and theorems, with no code.
#![tactic(auto)]
