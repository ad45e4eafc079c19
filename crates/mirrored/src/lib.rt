// Two lists of calls alike but for the sign of every y, and what is replied to them. Definitions and proofs only: there is no code.
#![tactic(auto)]
