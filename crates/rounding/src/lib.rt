// A float as a whole multiple of its format's smallest value, and the laws of each rounded operation. No functions.
#![tactic(auto)]
