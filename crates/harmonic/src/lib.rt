// Slopes by the harmonic rule in definitions (specs/) and their laws (proofs/); no code.
#![tactic(auto)]
