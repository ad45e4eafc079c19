// No code: lists of calls on a season book, and what is proved of them, are in specs/ and proofs/.
#![tactic(auto)]
