// The lines that a trace's programs print (TRACE.md, "Replies").
// bytes: a line as it is written into a buffer that is lent, and bytes put into a buffer.
// parts: a word and numbers behind it, ranges, needs, and the lines of a word alone.
// causes: operations, OS errors, causes, and a refused first piece.
// tickets: tickets, receipts and buffers.
// lines: the lines that both programs print.
// refusals: what replay prints of a refusal.
// outcomes: what both programs print of an outcome.
// replies: what replay prints of a reply.
// rows: what replay prints of the rows.
// short: what optrun prints of a reply.
// output: what replay prints of a line, at the front of its buffer.
#![tactic(auto)]

pub mod bytes;
pub mod causes;
pub mod lines;
pub mod outcomes;
pub mod output;
pub mod parts;
pub mod refusals;
pub mod replies;
pub mod rows;
pub mod short;
pub mod tickets;
