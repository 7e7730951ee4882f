// The three demands, each change request and the starred cases, as statements about the definitions that the calls are bound to: no code.
#![tactic(auto)]
