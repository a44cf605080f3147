// What becomes of one operation when its flush result arrives (store-io's optable.rs: flushed). Each function is the definition of its name in
// step's Rules.
ghost use Rattle.std.specs.Prelude.{◌≡◌, ◌-◌, Bool};
ghost use Rattle.std.specs.declared.option.Option.{Option};
ghost use Rattle.domain.specs.declared.FirstCause.{FirstCause};
ghost use Rattle.model.specs.Opening.{Plan};
ghost use Rattle.step.specs.Rules.{Input.flushed as flushedBy, flush_outcome, rules};
ghost use Rattle.settle.specs.Finished.{Tells};

use crate::{End, Finished, Turn};
use completion::{Held, Outcome, Range, Refusal, WriteTicket};
use domain::FirstCause;
use model::{Awaits, Opening, Row};
use platform::Flushed;

// What a flush result makes of a ticket's write.
fn flush_outcome(o: Opening, t: WriteTicket, res: Flushed) -> Outcome
    ensures { result ≡ flush_outcome o t res }
{
    match res {
        Flushed::Need(need) => Outcome::Receipt(t, region::receipt::receipt_for(o, t, need)),
        Flushed::Unknown(cause) => {
            Outcome::Unknown(
                Range {
                    region: t.region,
                    start: t.start,
                    end: t.end,
                },
                cause,
            )
        }
        Flushed::Poisoned(cause) => Outcome::Poisoned(cause),
    }
}

// The length of a ticket's range.
fn ticket_length(t: WriteTicket) -> u64
    ensures { result ≡ t.end.0 - t.start.0 }
{
    t.end.0.saturating_sub(t.start.0)
}

// A flush result for the operation in a row (Table::flushed).
pub fn flushed(o: Opening, row: Row, res: Flushed) -> Finished
    ensures { (g : Plan) (forced : Bool) (first : Option FirstCause) → Tells result (λ bytes. rules o g forced first row bytes (flushedBy res)) }
{
    match row.awaits {
        Awaits::Flush(t) => Finished::Ended(End {
            outcome: flush_outcome(o, t, res),
            buf: Some(Held {
                buffer: row.buffer,
                len: ticket_length(t),
            }),
            turn: Turn { total: 0, by: 0 },
            cause: None,
        }),
        _ => Finished::Away(Refusal::NotAwaited), // awaits no flush
    }
}
