// What is handed back to the host (store-io's completion.rs, with the ticket and the receipt of receipt.rs and the contexts of io.rs):
// completions, and the reply to each call. specs/Numbers.antt lists document 01's number for each case that has one.
#![tactic(auto)]

pub mod refusals;

use domain::{FirstCause, Op, OsError};
use regionmap::{Offset, Position};

// A write that completed in full, as io.rs's `ticket` makes it.
#[derive(Clone, Copy)]
pub struct WriteTicket {
    pub volume: u64,
    pub region: u64,
    pub generation: u32,
    pub start: Position,
    pub end: Position,
    pub need: u64,
    pub epoch: u64,
}

// A receipt, as io.rs's `receipt_for` makes it of a ticket; "untorn and prefix are false".
#[derive(Clone, Copy)]
pub struct DurableReceipt {
    pub volume: u64,
    pub region: u64,
    pub generation: u32,
    pub class: u64,
    pub label: u64,
    pub start: Position,
    pub through: Position,
    pub untorn: bool,
    pub need: u64,
    pub prefix: bool,
    pub synced: bool,
    pub epoch: u64,
}

// "the region and the operation's whole range"
#[derive(Clone, Copy)]
pub struct Range {
    pub region: u64,
    pub start: Position,
    pub end: Position,
}

// What an operation came to.
#[derive(Clone, Copy)]
pub enum Outcome {
    Written(WriteTicket),
    Receipt(WriteTicket, DurableReceipt),
    Read { len: u64 },
    Unknown(Range, FirstCause),
    Interrupted(Range),
    Corruption(Range),
    Io { range: Range, op: Op, raw: u32 },
    QueueFull(Range),
    Poisoned(FirstCause),
}

// The operation's buffer, with its length, where it came back.
#[derive(Clone, Copy)]
pub struct Held {
    pub buffer: u64,
    pub len: u64,
}

// One finished operation: the host's tag, what it came to, and its buffer.
#[derive(Clone, Copy)]
pub struct Completion {
    pub tag: u64,
    pub outcome: Outcome,
    pub buf: Option<Held>,
}

// "Context is the region's id. Questions 12 to 14 of a read add the range"; some have none (D-20).
#[derive(Clone, Copy)]
pub enum Context {
    None,
    Region(u64),
    Range(Range),
}

// Why a call is turned away: store-io's names, and a name for each number that document 01 adds.
#[derive(Clone, Copy)]
pub enum Refusal {
    ForeignPosition(Context),
    ForeignBuffer(Context),
    QueueFull(Context),
    StaleGeneration(Context),
    NotReady(Context),
    ReadOnly(Context),
    Poisoned(FirstCause),
    Empty(Context),
    Misaligned(Context),
    OutOfBounds(Context),
    NotHeld(Context),
    LifetimeSpent(Context),
    // An opening that breaks a rule or is lent too little, or a later call with another length of row memory or pool (D-10).
    Unfit,
    UnknownTag,
    NotAwaited,
    AbovePiece,
}

// The reply to a call.
#[derive(Clone, Copy)]
pub enum Reply {
    // "The reply is the first piece: card offset, buffer, count"; likewise the next piece.
    Piece {
        qtag: u64,
        offset: Offset,
        count: u64,
        buffer: u64,
    },
    // Turned away: nothing has changed.
    No(Refusal),
    // A first piece refused: "The host gets Io or QueueFull and the range, and its buffer, if it came back, with the whole length."
    // Io where there is an OS error, QueueFull where there is none.
    Rejected {
        range: Range,
        op: Op,
        raw: Option<OsError>,
        buf: Option<Held>,
    },
    // The operation is complete: its completion can be taken.
    Done {
        qtag: u64,
    },
    // "keeps the row and replies with tag and need"
    Flush {
        qtag: u64,
        need: u64,
    },
    // The oldest completion, taken.
    Took(Completion),
    // "With none ready the reply is none"
    None,
    // A setting or a report was taken.
    Ok,
    // "whether a write still awaits a piece"
    Writes(bool),
    // "the mark, 2 × the oldest live sequence number + 1, or 2 × the next if none is live"
    Mark(u64),
}
