// The pages for the yard's reviewer: what the composer and the door promise, each demand as one statement. They stand in
// specs/, and have no code of their own.
#![tactic(auto)]
