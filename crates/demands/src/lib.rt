// No code: the customer's demands as theorems over the crates below. specs/ says what they speak of, proofs/ has them.
#![tactic(auto)]
