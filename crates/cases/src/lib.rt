// Document 01's T1 to T12 as one theorem, and document 02's E2; nothing runs here. `specs/` is the work.
#![tactic(auto)]
