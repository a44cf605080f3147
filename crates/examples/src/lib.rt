// Demands 2 and 3 are not empty: opened tables and lists of calls that meet their suppositions (demand 3's lists: specs/Demand3Lists.antt). Nor is
// what is said of a write counted as kept; it can fail at a byte of which it says nothing, and it ends at the completion (specs/Overlapped.antt).
// There is no code here.
#![tactic(auto)]
