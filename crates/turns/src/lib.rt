// Four stations, one allowance (request 2026-10): definitions, and what holds of every run. No code; crate stations computes it.
#![tactic(auto)]
