// What the exported batch gives, as `host_batch` promises it: definitions, no code. A static library, as that is, can't be cited.
#![tactic(auto)]
