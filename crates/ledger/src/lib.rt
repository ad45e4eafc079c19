// The plain ledger, lists of calls, and the theorem over them. Definitions and proofs only: there is no code.
#![tactic(auto)]
