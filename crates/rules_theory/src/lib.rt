// Theorems about the definitions of `rules`: no code.
#![tactic(auto)]
