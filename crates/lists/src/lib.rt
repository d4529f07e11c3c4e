// Lists by their places: definitions and their laws, no code.
#![tactic(auto)]
