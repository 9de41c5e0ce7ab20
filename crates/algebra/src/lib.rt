// Identities over commutative rings, each proved by one computed test, and parity. The crate has no
// function: its theorems stand in proofs/.
#![tactic(auto)]
