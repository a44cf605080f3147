// The table as data: what a row holds, the counts, what an opening is given (store-io's optable.rs and store.rs have them as Row, Live,
// Kind, Split, Table and Inner). The state, the calls and what they do are definitions in specs/; the crates above run them.
#![tactic(auto)]

use completion::WriteTicket;
use domain::FirstCause;
use platform::{Answer, Flushed};
use regionmap::{FoundPiece, Position};

// What an operation in flight is, in the region's positions (optable.rs's Kind, without appends and barriers): Page is a write.
#[derive(Clone, Copy)]
pub enum Kind {
    Page { start: Position, end: Position },
    Read { start: Position, end: Position },
}

// The operation's length, and the bytes done before the piece in flight (optable.rs's Split).
#[derive(Clone, Copy)]
pub struct Split {
    pub total: u64,
    pub done: u64,
}

// "a row says what it awaits, nothing, a piece or a flush"
#[derive(Clone, Copy)]
pub enum Awaits {
    Nothing,
    Piece(Kind, Split),
    Flush(WriteTicket),
}

// One row (optable.rs's Row and Live). A row that awaits nothing keeps only its generation: the rest is zero (D-4, D-11).
#[derive(Clone, Copy)]
pub struct Row {
    pub generation: u32,
    pub tag: u64,
    pub seq: u64,
    pub handle: u64,
    pub buffer: u64,
    pub durable: bool,
    pub awaits: Awaits,
}

// "the counts of live rows, ready completions and submissions"; submissions is the next sequence number.
#[derive(Clone, Copy)]
pub struct Counts {
    pub live: u64,
    pub ready: u64,
    pub submissions: u64,
}

// A region's gate: open, or closed for the reason why.
#[derive(Clone, Copy)]
pub enum Gate {
    Open,
    Recycled,
    Released,
}

// The numbers of an opening. `regions` is how many regions the plan lists.
#[derive(Clone, Copy)]
pub struct Opening {
    pub block: u64,
    pub depth: u64,
    pub lifetime: u64,
    pub card: u64,
    pub buffers: u64,
    pub capacity: u64,
    pub read_only: bool,
    pub flush: bool,
    pub volume: u64,
    pub class: u64,
    pub label: u64,
    pub epoch: u64,
    pub regions: u64,
}

// The lengths of all that is lent: the row memory's parts, and the pool.
#[derive(Clone, Copy)]
pub struct Lengths {
    pub rows: u64,
    pub store: u64,
    pub free: u64,
    pub ready: u64,
    pub owners: u64,
    pub pool: u64,
}

// "A request names a region handle, a position (volume, region, generation, offset), a buffer, its length, plain or durable, and the host's tag."
#[derive(Clone, Copy)]
pub struct Request {
    pub handle: u64,
    pub volume: u64,
    pub region: u64,
    pub generation: u64,
    pub offset: Position,
    pub buffer: u64,
    pub length: u64,
    pub durable: bool,
    pub tag: u64,
}

// What a host calls, once a table is open; the lookups are apart, as they change nothing (D-25).
#[derive(Clone, Copy)]
pub enum Call {
    Write(Request),
    ReadPage(Request),
    // "An answer arrives": its form, whether the buffer came back, and "The host passes its flush count".
    Answer {
        qtag: u64,
        answer: Answer,
        back: bool,
        flushes: u64,
    },
    Flushed {
        qtag: u64,
        result: Flushed,
    },
    Take,
    // "set a region's gate, read-only or forced mark"
    SetGate {
        handle: u64,
        gate: Gate,
    },
    SetReadOnly {
        handle: u64,
        on: bool,
    },
    SetForced {
        handle: u64,
        on: bool,
    },
    // "report poison with a cause"
    ReportPoison(FirstCause),
}

// "lookups: whether a write still awaits a piece; the mark"
#[derive(Clone, Copy)]
pub enum Lookup {
    WritesLive,
    Mark,
}

// What an accepted submission comes to: the row on top of the free stack, this kind of operation, this first piece.
#[derive(Clone, Copy)]
pub struct Accepted {
    pub row: u64,
    pub kind: Kind,
    pub piece: FoundPiece,
}
