// Theorems about the definitions of `encoder`: no code.
#![tactic(auto)]
