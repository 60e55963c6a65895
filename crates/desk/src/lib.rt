// From the weights of a tag to the ticket that the counter opens, shown of the promises.

#![tactic(auto)]
