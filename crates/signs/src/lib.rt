// Opposite doubles, and what the float steps make of them. Definitions and proofs only: there is no code.
#![tactic(auto)]
