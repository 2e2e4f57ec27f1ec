// What the contracts of the other crates come to: specs/ and proofs/ alone, no code.
#![tactic(auto)]
