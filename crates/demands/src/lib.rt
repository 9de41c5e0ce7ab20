// The customer's demands, as theorems over the promises that the calls make.
#![tactic(auto)]
