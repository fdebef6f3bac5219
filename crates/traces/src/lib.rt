// Whole calls of the Rust, run again by the definitions of the session: no code, lists in specs/ and proofs.
#![tactic(auto)]
