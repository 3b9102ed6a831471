// Theorems about the definitions of `scope`: the seven promises of a layout, that ink numbers travel with circles, that saved cards come back, and how large a
// finished sheet gets. No functions.
#![tactic(auto)]
