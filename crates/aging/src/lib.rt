// What becomes of an old trace, whose requests without an age counted as age 0. Definitions and theorems, no code.
#![tactic(auto)]
