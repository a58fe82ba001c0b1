// Document 01 in definitions (specs/) and their laws (proofs/); no code.
#![tactic(auto)]
