// Laws of the definitions of `scope` that proofs of code cite: runs, refusals read both ways, closure, chains and numbers, inks, card files. No functions.
#![tactic(auto)]
