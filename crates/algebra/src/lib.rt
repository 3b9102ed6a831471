// Laws on whole numbers, squares, orders and tables, for the proofs of the crates above. No functions.
#![tactic(auto)]
