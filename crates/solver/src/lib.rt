// The solver: a record's bytes in; a drawing, "none" or "halted" out. Its definitions and their theorems, no code.
#![tactic(auto)]
