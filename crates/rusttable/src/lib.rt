// Demand 2 "by the Rust": the functions of docs/src that document 01's comparison speaks of, as functions on values (specs/), and their equality with
// `step` (proofs/). There is no code here.
#![tactic(auto)]
