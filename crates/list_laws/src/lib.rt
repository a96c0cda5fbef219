// The list's form of a call and the session's own agree: theorems, no code.
#![tactic(auto)]
