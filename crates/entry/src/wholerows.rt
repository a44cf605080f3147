// Row memory in words is whole rows, 16 words each: a length that is no multiple of 16 gets 13, and nothing changes; else opening and lookup are
// those of words, and the calls those of calls and settings.
ghost use Rattle.std.specs.Prelude.{◌≡◌};
ghost use Rattle.memory.specs.Words.{SameWords};
ghost use Rattle.entry.specs.WholeRows.{fits_in};
ghost use Rattle.entry.specs.Lent.{OpensWholeIn, LooksWholeIn};

use completion::{Refusal, Reply};
use memory::words::{View, Words};
use model::{Counts, Lookup, Opening};

// Opens a table in what is lent (submitter::open).
pub fn open_whole(
    o: Opening,
    plan: &[u64],
    rows: &mut [u64],
    words: &mut Words,
    pool: &[u8],
) -> Result<Counts, Refusal>
    ensures same { SameWords words.old words.new }
    ensures opens { OpensWholeIn o plan.now rows.old words.old pool.now result rows.new words.new }
{
    if rows.len() % 16 == 0 {
        return crate::words::open_words(o, plan, rows, words, pool);
    }
    Err(Refusal::Unfit)
}

// Whether the rows are whole and all that is lent has the opening's lengths.
pub fn fits(rows: &[u64], words: &View, pool: &[u8]) -> bool
    ensures { result ≡ fits_in rows.now words.now.store.now words.now.free.now words.now.ready.now words.now.owners.now pool.now }
{
    if rows.len() % 16 == 0 {
        return words.fits(rows.len() / 16, pool.len());
    }
    false
}

// The same, of what is lent to be written.
pub(crate) fn fits_words(rows: &[u64], words: &Words, pool: &[u8]) -> bool
    ensures { result ≡ fits_in rows.now words.now.store.now words.now.free.now words.now.ready.now words.now.owners.now pool.now }
{
    fits(rows, &words.view(), pool)
}

// One lookup (submitter::lookup): it changes nothing.
pub fn lookup_whole(x: Lookup, counts: &[u64; 3], rows: &[u64], words: &View, pool: &[u8]) -> Reply
    ensures { LooksWholeIn x counts.now rows.now words.now pool.now result }
{
    if rows.len() % 16 == 0 {
        return crate::words::lookup_words(x, counts, rows, words, pool);
    }
    Reply::No(Refusal::Unfit)
}
