// The table in numbers, for a host that takes no enums and lends no records: what it asks for, what it is told, and the rows (D-33).
// codes: what a code of the host names, or that it names nothing.
// replies: the reply to a call as 17 words.
// rows: rows as words, 16 each.
#![tactic(auto)]

pub mod codes;
pub mod replies;
pub mod rows;
