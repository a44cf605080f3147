// The lines of a trace, read (TRACE.md): what a line says, of its bytes without the line's end.
// calls: the lines of two to nine fields behind the word.
// forms: what a line of calls can say, and the forms of a word alone, of an answer and of a submission.
// lines: a line by its first byte and the count of its fields, and what optrun takes of it.
// preamble: the lines `open`, `region` and `start`.
// requests: the call that a line asks for.
// values: OS errors, gates, flags, operations, causes and requests in a line's fields.
#![tactic(auto)]

pub mod calls;
pub mod forms;
pub mod lines;
pub mod preamble;
pub mod requests;
pub mod values;
