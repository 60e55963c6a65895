// The laws of elimination, over any field.

#![tactic(auto)]
