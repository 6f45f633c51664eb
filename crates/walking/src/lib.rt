#![tactic(auto)]

// No code: proofs/ has steps for proofs that walk a function by hand, of structs that hold references and of slices of structs. No function needs them today.
