// The lines of a trace before its table is open, answered: `open`, `region`, `start`.
mod before;
mod planned;
mod start;

pub use crate::preamble::before::before_line;
pub use crate::preamble::planned::planned_line;
pub use crate::preamble::start::say_no;
