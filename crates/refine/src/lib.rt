// The words mean what the model says: theorems, no code.
#![tactic(auto)]
