// The laws of Algorithm 1 and of its plans, and of plans that come from outside.

#![tactic(auto)]
