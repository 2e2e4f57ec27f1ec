// Definitions and laws on bytes, lists, bits and wrapping sums that the other crates cite: specs/ and proofs/ alone, no code.
#![tactic(auto)]
