// The pieces of a page operation, taken whole one after another, act together like one transfer (demand 2 for one range): definitions
// (specs/Transfer.antt) and the theorem (proofs/Theorem.antt). No code: the operation table issues the pieces.
