// Definitions and laws of two reviewers' facts put together (document 02, 2026-09): specs/ and proofs/.
#![tactic(auto)]
