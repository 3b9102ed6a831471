// Document 01 as definitions, with its sample cards. No functions.
#![tactic(auto)]
