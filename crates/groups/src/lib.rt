// The plain ledger of a course group, and the isolation of eight groups that share one table. No code.
#![tactic(auto)]
