// Theorems about the definitions of `search`: no code.
#![tactic(auto)]
