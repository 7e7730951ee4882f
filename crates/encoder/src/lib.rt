// The encoder and the decoder: definitions of variables, clauses and decoding, and their laws. No code.
#![tactic(auto)]
