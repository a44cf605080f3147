// What the host of a trace does to the pool between calls (TRACE.md, `fill` and `sum`).
// mayfill: where the host may write.
// pool: the bytes that it writes, and the sum over a stretch.
#![tactic(auto)]

pub mod mayfill;
pub mod pool;
