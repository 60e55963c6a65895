// The laws of document 02, order 6, shown of the definitions.

#![tactic(auto)]
