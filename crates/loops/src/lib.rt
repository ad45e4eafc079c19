// Definitions and laws of loops and of places of lists; nothing runs here. `specs/` is the work.
#![tactic(auto)]
