// The worked lines of document 01, shown of the definitions.

#![tactic(auto)]
