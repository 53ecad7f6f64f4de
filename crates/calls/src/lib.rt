#![tactic(auto)]

// No code: what every list of calls comes to is a theorem about the definitions that the exported functions' contracts cite (specs/DemandThree.antt, proofs/DemandThree.antt).
