// The page for the reader of a curve at a tick: how near a reading is to the surface at the path's place. It stands in
// specs/, and has no code of its own.
#![tactic(auto)]
