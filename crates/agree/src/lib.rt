// The three demands as statements, and their proof on the definitions.
#![tactic(auto)]
