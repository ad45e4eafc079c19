// Machines over lists of calls, and their laws. Definitions and laws only: there is no code.
#![tactic(auto)]
