// What follows from the definitions of a file and its calls; no code of its own.

#![tactic(auto)]
