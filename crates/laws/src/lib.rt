// Theorems on the definitions of `kvmi`: no code.
#![tactic(auto)]
