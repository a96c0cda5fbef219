// Theorems over lists of calls: no code.
#![tactic(auto)]
