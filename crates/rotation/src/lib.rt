// The rotation matrix of a matrix record: what a text makes of the three axes, and how the parities tell a form's leftmost
// syllable. The crate has no function: its theorems stand in proofs/.
#![tactic(auto)]
