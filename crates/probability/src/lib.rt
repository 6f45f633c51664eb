#![tactic(auto)]

// No code: specs/ and proofs/ have the mathematics that the other crates stand on.
