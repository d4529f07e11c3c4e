// Worked parts of a card and the corner case of the patches: they take long, and stand apart so that no wrong program waits for them.
// They stand in specs/; there is no code here.
#![tactic(auto)]
