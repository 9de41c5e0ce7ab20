// The normal form: tails, the grammar, and the counts of a text.
#![tactic(auto)]
