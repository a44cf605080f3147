// What holds of a trace from its first line on (specs/, proofs/). There is no code here.
#![tactic(auto)]
