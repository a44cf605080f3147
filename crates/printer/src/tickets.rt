// Tickets, receipts and buffers of a taken completion's line, each put at the line's end.
ghost use Rattle.std.specs.Prelude.{◌≡◌, [], ◌∷◌, ◌++◌, ◌+◌, ◌*◌, ◌≤◌, length};
ghost use Rattle.layout.specs.Pick.{pick};
ghost use Rattle.printer.specs.Parts.{fields_of, bit, cause_text, need_text, receipt_word};
ghost use Rattle.printer.specs.Tickets.{buffer_word, buffer_text, ticket_text, receipt_text};
ghost use Rattle.printer.specs.Outcomes.{place_text};
ghost use Rattle.printer.specs.Line.{said, SameLine};

use crate::bytes::Line;
use completion::{DurableReceipt, Held, Range, WriteTicket};
use domain::FirstCause;

// Puts a buffer that came back, with its length.
fn put_back(line: &mut Line, buffer: u64, len: u64)
    requires { line.old.len + 49 ≤ length line.old.out.now }
    ensures same { SameLine line.old line.new }
    ensures text { said line.new ≡ said line.old ++ fields_of buffer_word (buffer ∷ len ∷ []) }
    ensures room { line.new.len ≤ line.old.len + 49 }
{
    let numbers = [buffer, len];
    crate::parts::put_fields(line, b" buffer", &numbers)
}

// Puts an operation's buffer, or that it did not come back.
#[tactic(auto, unfolding(crate::specs::Tickets::buffer_text))]
pub fn put_buffer(line: &mut Line, buf: Option<Held>)
    requires { line.old.len + 49 ≤ length line.old.out.now }
    ensures same { SameLine line.old line.new }
    ensures text { said line.new ≡ said line.old ++ buffer_text buf }
    ensures room { line.new.len ≤ line.old.len + 49 }
{
    match buf {
        Some(Held { buffer, len }) => put_back(line, buffer, len),
        None => line.put(b" lost"),
    }
}

// Puts a ticket.
#[tactic(auto, unfolding(crate::specs::Tickets::ticket_text))]
fn put_ticket(line: &mut Line, t: WriteTicket)
    requires { line.old.len + 154 ≤ length line.old.out.now }
    ensures same { SameLine line.old line.new }
    ensures text { said line.new ≡ said line.old ++ ticket_text t }
    ensures room { line.new.len ≤ line.old.len + 154 }
{
    let generation = t.generation as u64;
    let numbers = [
        t.volume, t.region, generation, t.start.0, t.end.0, t.need, t.epoch,
    ];
    crate::parts::put_fields(line, b" ticket", &numbers)
}

// Puts a receipt.
#[tactic(auto, unfolding(crate::specs::Tickets::receipt_text))]
fn put_receipt(line: &mut Line, d: DurableReceipt)
    requires { line.old.len + 260 ≤ length line.old.out.now }
    ensures same { SameLine line.old line.new }
    ensures text { said line.new ≡ said line.old ++ receipt_text d }
    ensures room { line.new.len ≤ line.old.len + 260 }
{
    let generation = d.generation as u64;
    let untorn = crate::parts::bit_of(d.untorn);
    let prefix = crate::parts::bit_of(d.prefix);
    let synced = crate::parts::bit_of(d.synced);
    let numbers = [
        d.volume,
        d.region,
        generation,
        d.class,
        d.label,
        d.start.0,
        d.through.0,
        d.need,
        untorn,
        prefix,
        synced,
        d.epoch,
    ];
    crate::parts::put_fields(line, b" receipt", &numbers)
}

// Puts a word, a ticket's range and a need, and of the whole the ticket.
#[tactic(auto, unfolding(layout::specs::Pick::pick), using(crate::proofs::Bits::bit_set))]
pub fn put_ticketed(line: &mut Line, whole: bool, word: &[u8], t: WriteTicket, need: u64)
    requires { (length word.now ≤ 8) × (line.old.len + 71 + 154 * bit whole ≤ length line.old.out.now) }
    ensures same { SameLine line.old line.new }
    ensures text { said line.new ≡ said line.old ++ (need_text word.now t need ++ pick whole (ticket_text t) []) }
    ensures room { line.new.len ≤ line.old.len + 71 + 154 * bit whole }
{
    crate::parts::put_need(line, word, t, need);
    if whole {
        put_ticket(line, t)
    }
}

// Puts ` receipt START END NEED`, and of the whole `TICKET RECEIPT`.
#[tactic(auto, unfolding(layout::specs::Pick::pick), using(crate::proofs::Bits::bit_set))]
pub fn put_durable(line: &mut Line, whole: bool, t: WriteTicket, d: DurableReceipt)
    requires { line.old.len + 87 + 398 * bit whole ≤ length line.old.out.now }
    ensures same { SameLine line.old line.new }
    ensures text { said line.new ≡ said line.old
        ++ (need_text receipt_word t d.need ++ pick whole (ticket_text t) [] ++ pick whole (receipt_text d) []) }
    ensures room { line.new.len ≤ line.old.len + 87 + 398 * bit whole }
{
    put_ticketed(line, whole, b" receipt", t, d.need);
    if whole {
        put_receipt(line, d)
    }
}

// Puts ` unknown START END`, and of the whole its region before them.
#[tactic(auto, unfolding(crate::specs::Outcomes::place_text, layout::specs::Pick::pick), using(crate::proofs::Bits::bit_set))]
fn put_place(line: &mut Line, whole: bool, range: Range)
    requires { line.old.len + 50 + 21 * bit whole ≤ length line.old.out.now }
    ensures same { SameLine line.old line.new }
    ensures text { said line.new ≡ said line.old ++ place_text whole range }
    ensures room { line.new.len ≤ line.old.len + 50 + 21 * bit whole }
{
    if whole {
        return crate::parts::put_range(line, b" unknown", range);
    }
    let numbers = [range.start.0, range.end.0];
    crate::parts::put_fields(line, b" unknown", &numbers)
}

// Puts ` unknown START END OP ERR`, of the whole ` unknown REGION START END OP ERR`.
pub fn put_unknown(line: &mut Line, whole: bool, range: Range, cause: FirstCause)
    requires { line.old.len + 77 + 21 * bit whole ≤ length line.old.out.now }
    ensures same { SameLine line.old line.new }
    ensures text { said line.new ≡ said line.old ++ (place_text whole range ++ cause_text cause) }
    ensures room { line.new.len ≤ line.old.len + 77 + 21 * bit whole }
{
    put_place(line, whole, range);
    crate::causes::put_cause(line, cause)
}
