// The search for y-roots: definitions and laws only.

#![tactic(auto)]
