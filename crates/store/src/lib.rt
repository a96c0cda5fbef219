// The vCPU words that a host lends: plain fields and MSR switches.
// Every public function takes words of any length and any numbers: a word past the end reads as 0, and a store there changes nothing.
#![tactic(auto)]

pub mod bits;
pub mod words;
