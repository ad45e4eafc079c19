// The numbers of two lists of samples alike but for the sign of every y. Definitions and proofs only: there is no code.
#![tactic(auto)]
