// The mathematics that the promises rest on: no function, only the records of rings and fields (specs/) and the laws over them (proofs/).

#![tactic(auto)]
