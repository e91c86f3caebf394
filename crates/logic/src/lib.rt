// Truth values: the definitions and their laws. There is no code.
#![tactic(auto)]
