// What a submission's verdict leaves (store-io's submitter/mod.rs: issue): the buffer's owner, the row as it becomes, whether the counts accept an
// operation, the reply.
ghost use Rattle.std.specs.Prelude.{◌≡◌, slice_set};
ghost use Rattle.submission.specs.Touched.{issued, owners_after};

use completion::{Refusal, Reply};
use model::{Accepted, Request, Row};
use optable::Frees;
use optable::touched::Touched;

// The buffer goes to the table.
fn lend(owners: &mut [u64], buffer: u64)
    ensures { owners.new ≡ slice_set owners.old buffer 1 }
{
    let at = buffer as usize;
    if at < owners.len() {
        owners[at] = 1;
    }
}

// What a verdict leaves of the row on top, of the owners, and its reply (Submitter::issue).
pub fn issue(
    v: Result<Accepted, Refusal>,
    row: Row,
    seq: u64,
    owners: &mut [u64],
    q: Request,
) -> Touched
    ensures { (result ≡ issued v row seq q) × (owners.new ≡ owners_after v q owners.old) }
{
    match v {
        Err(refusal) => optable::touched::away(row, refusal),
        Ok(accepted) => {
            lend(owners, q.buffer);
            Touched {
                row: optable::start::start(row.generation, seq, accepted.kind, q),
                accepts: true,
                frees: Frees::Nothing,
                reply: Reply::Piece {
                    qtag: optable::start::queue_tag(accepted.row, row.generation),
                    offset: accepted.piece.offset,
                    count: accepted.piece.count,
                    buffer: q.buffer,
                },
            }
        }
    }
}
