// The page of definitions: no function, only what the contracts of the other crates cite (specs/) and the laws that show it right (proofs/).

#![tactic(auto)]
