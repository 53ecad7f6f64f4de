#![tactic(auto)]

// No code: what lists of edits leave in the intercept frames is a theorem about the definitions that the exported functions' contracts cite (specs/TwoHands.antt, proofs/TwoHands.antt).
