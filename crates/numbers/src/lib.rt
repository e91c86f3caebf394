// The order in which a call judges its refusals: the definitions and their laws. There is no code.
#![tactic(auto)]
