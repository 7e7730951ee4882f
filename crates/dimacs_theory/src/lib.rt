// Theorems about the definitions of `dimacs`: no code.
#![tactic(auto)]
