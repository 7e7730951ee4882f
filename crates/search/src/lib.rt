// The search: its definitions, no code.
#![tactic(auto)]
