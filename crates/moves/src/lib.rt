// Definitions and laws of moves between the stored forms (document 02, 2026-07): specs/ and proofs/.
#![tactic(auto)]
