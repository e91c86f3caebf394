// This crate holds definitions and theorems alone: SImp itself, for the crates that read, check and run scripts.
#![tactic(auto)]
