// Salvaging a torn trace (rule Salvage; 02, ticket 13), as definitions and theorems over any door and any greatest length of a record:
// what is kept and what is skipped of all the bytes, and what is known of a window of them while more may come. Here there is no code.
#![tactic(auto)]
