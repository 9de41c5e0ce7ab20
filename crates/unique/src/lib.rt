// A matrix has one form, phase included, no letter list with that matrix holds fewer T's, and the syllables of a unitary
// matrix are told one by one by its rotation matrix. The crate has no function: its theorems stand in proofs/.
#![tactic(auto)]
