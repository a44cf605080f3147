// What a transfer does to the card: definitions from POSIX.1-2017 (specs/Posix.antt) and their laws (proofs/Laws.antt). No code: the
// transfers are the system's.
#![tactic(auto)]

pub mod transfer;
