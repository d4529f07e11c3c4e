// The page of ticket 10 (rule Old traces): what the converter promises of a replay. Definitions and theorems, no code.
#![tactic(auto)]
