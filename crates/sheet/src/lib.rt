// The proof sheet: a judged drawing as plain text. Its definitions and their theorems, no code.
#![tactic(auto)]
