// What the numbers of moves of a sheet say where the sheet was planned, as a sector or in a leg: definitions and theorems.
#![tactic(auto)]
