// A patch's literal sum is the walk over terms that the composer's code makes, over the domain points. Theorems, no code.
#![tactic(auto)]
