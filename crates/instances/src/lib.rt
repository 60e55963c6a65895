// The codes that carry a field.

#![tactic(auto)]
