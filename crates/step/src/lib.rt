// What each call does, as definitions alone (specs/): the questions of a submission, the step from one state to the next, what holds of every
// table that calls have left. The crates above run them.
#![tactic(auto)]
