// The lines of an opening, read: `open`, `region` and `start`.
mod kept;
mod lines;
mod plan;

pub use crate::preamble::kept::{add_kept, finish};
pub use crate::preamble::lines::open_line;
pub use crate::preamble::plan::add_region;
use model::Opening;

// What a line of an opening says; what a `region` says is put into the plan by `add_region`.
#[derive(Clone, Copy)]
pub enum OpenLine {
    // "A line that starts with `#` is passed over"
    Comment,
    Open(Opening),
    Region,
    Start,
    // A line of another form.
    Bad,
}
