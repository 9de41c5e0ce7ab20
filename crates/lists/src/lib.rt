// Lists, member by member: what holds of every one, and which is the first that fails a test. The crate has no function:
// its theorems stand in proofs/.
#![tactic(auto)]
