// Request 2026-11, dials known only within limits: the definitions in specs/, what follows from them in proofs/. The code is crate limits's,
// and crate reasons's.
#![tactic(auto)]
