// The oldest completion is taken (store-io's completion.rs and optable.rs: take).
ghost use Rattle.std.specs.Prelude.{◌≡◌};
ghost use Rattle.arrival.specs.Taking.{back_in, TakesTo};

use completion::{Held, Reply};
use model::{Counts, Row};
use optable::Frees;
use optable::touched::Touched;

// A buffer that came back goes to the host.
fn give_back(owners: &mut [u64], buf: Option<Held>)
    ensures { owners.new ≡ back_in buf owners.old }
{
    match buf {
        Some(Held { buffer, .. }) => {
            let at = buffer as usize;
            if at < owners.len() {
                owners[at] = 0;
            }
        }
        None => {}
    }
}

// Takes the oldest completion; none where none is ready.
pub fn take(
    row: Row,
    counts: Counts,
    store: &[u64],
    ready: &mut [u64],
    owners: &mut [u64],
) -> Touched
    ensures takes_to { TakesTo row counts store.now ready.old owners.old result ready.new owners.new }
    ensures no_row { result.row ≡ row }
{
    if counts.ready == 0 {
        return Touched {
            row,
            accepts: false,
            frees: Frees::Nothing,
            reply: Reply::None,
        };
    }
    let o = memory::settings::settings(store);
    let c = ring::oldest::oldest(ready, o);
    ring::pop(ready, o.depth);
    give_back(owners, c.buf);
    Touched {
        row,
        accepts: false,
        frees: Frees::Taken,
        reply: Reply::Took(c),
    }
}
