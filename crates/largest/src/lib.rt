// Definitions and laws of the largest facts (document 02, 2026-05): specs/ and proofs/.
#![tactic(auto)]
