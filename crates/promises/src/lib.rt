// Every promise of the project in one list, and its proofs. There is no code.
#![tactic(auto)]
