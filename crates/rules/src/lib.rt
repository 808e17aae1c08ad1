#![tactic(auto)]

// The rules as definitions (specs/) and the laws about them (proofs/). There is no function here.
