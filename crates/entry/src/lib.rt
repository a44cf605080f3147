// What a host in C or Rust calls (store-io's Submitter, one function for each of its calls): numbers and slices of numbers in, the reply into `out`,
// 17 words (abi::replies). A slice crosses as a pointer and a length. The contracts are the model's calls over rows in words (specs/Entry.antt).
// calls: the calls of an operation's way, a submission, an answer or a flush result, a taking.
// settings: a region's settings and the report of poison.
// wholerows: that row memory in words is whole rows; opening and lookup.
// words: counts and rows put into their words, opening and lookup over whole rows.
#![tactic(auto)]

pub mod calls;
pub mod settings;
pub mod wholerows;
pub mod words;

ghost use Rattle.std.specs.Prelude.{◌≡◌, []};
ghost use Rattle.iobuf.specs.Turn.{turned};
ghost use Rattle.model.specs.Memory.{settings_in};
ghost use Rattle.arrival.specs.Arrived.{arrived_call};
ghost use Rattle.abi.specs.Asked.{request_in, answer_asked, flushed_asked, gate_asked, poison_asked};
ghost use Rattle.entry.specs.Entry.{parts_of, nameless_words, CallsOut, AnswersOut, LooksOut, OpensOut};
ghost use Rattle.memory.specs.Words.{SameWords};
ghost use Rattle.entry.specs.Lent.{parts_with};
ghost use Rattle.entry.specs.Settings.{setting_call};
ghost use Rattle.model.specs.declared.Call.TheVariants as Call;

use crate::settings::Setting;
use arrival::Arrived;
use completion::{Refusal, Reply};
use memory::words::{View, Words};
use model::{Lookup, Request};

// A write's reply.
fn write(
    q: Request,
    counts: &mut [u64; 3],
    rows: &mut [u64],
    words: &mut Words,
    pool: &mut [u8],
    out: &mut [u64; 17],
)
    ensures same { SameWords words.old words.new }
    ensures calls { CallsOut (Call.Write q) (parts_with counts.old rows.old words.old pool.old)
        (parts_with counts.new rows.new words.new pool.new) out.new }
{
    let reply = crate::calls::write(q, counts, rows, words, pool);
    abi::replies::put_reply(reply, out);
}

// A read's.
fn read_page(
    q: Request,
    counts: &mut [u64; 3],
    rows: &mut [u64],
    words: &mut Words,
    pool: &mut [u8],
    out: &mut [u64; 17],
)
    ensures same { SameWords words.old words.new }
    ensures calls { CallsOut (Call.ReadPage q) (parts_with counts.old rows.old words.old pool.old)
        (parts_with counts.new rows.new words.new pool.new) out.new }
{
    let reply = crate::calls::read_page(q, counts, rows, words, pool);
    abi::replies::put_reply(reply, out);
}

// That of an answer or a flush result.
fn arrived(
    qtag: u64,
    what: Arrived,
    counts: &mut [u64; 3],
    rows: &mut [u64],
    words: &mut Words,
    pool: &mut [u8],
    out: &mut [u64; 17],
)
    ensures same { SameWords words.old words.new }
    ensures calls { CallsOut (arrived_call qtag what) (parts_with counts.old rows.old words.old pool.old)
        (parts_with counts.new rows.new words.new pool.new) out.new }
{
    let reply = crate::calls::arrive(qtag, what, counts, rows, words, pool);
    abi::replies::put_reply(reply, out);
}

// That of a setting, or of a report of poison.
fn set(
    what: Setting,
    counts: &mut [u64; 3],
    rows: &mut [u64],
    words: &mut Words,
    pool: &mut [u8],
    out: &mut [u64; 17],
)
    ensures same { SameWords words.old words.new }
    ensures calls { CallsOut (setting_call what) (parts_with counts.old rows.old words.old pool.old)
        (parts_with counts.new rows.new words.new pool.new) out.new }
{
    let reply = crate::settings::set(what, counts, rows, words, pool);
    abi::replies::put_reply(reply, out);
}

// That of a code that names nothing: 13 first, as everywhere; the counts are not asked for.
fn nameless(rows: &[u64], words: &Words, pool: &[u8], out: &mut [u64; 17])
    ensures { out.new ≡ nameless_words (parts_with [] rows.now words.now pool.now) }
{
    if crate::wholerows::fits_words(rows, words, pool) {
        abi::replies::put_unknown(out);
        return;
    }
    abi::replies::put_whole(Reply::No(Refusal::Unfit), out);
}

// Opens a table in what is lent (Store::submitter). The opening's 13 numbers are block, depth, lifetime, card, buffers, capacity, read-only, flush
// policy, volume, class, label, epoch and regions; the plan has 70 words for each region.
#[unsafe(no_mangle)]
pub extern "C" fn table_open(
    opening: &[u64; 13],
    plan: &[u64],
    counts: &mut [u64; 3],
    rows: &mut [u64],
    store: &mut [u64],
    free: &mut [u64],
    ready: &mut [u64],
    owners: &mut [u64],
    pool: &[u8],
    out: &mut [u64; 17],
)
    ensures { OpensOut (settings_in opening.now) plan.now
        (parts_of counts.old rows.old store.old
        free.old ready.old owners.old pool.now)
        (parts_of counts.new rows.new store.new
        free.new ready.new owners.new pool.now) out.new }
{
    let o = abi::codes::opening_of(opening);
    let mut words = Words {
        store,
        free,
        ready,
        owners,
    };
    let opened = crate::wholerows::open_whole(o, plan, rows, &mut words, pool);
    match opened {
        Ok(c) => {
            *counts = [c.live, c.ready, c.submissions];
            abi::replies::put_whole(Reply::Ok, out);
        }
        Err(f) => abi::replies::put_whole(Reply::No(f), out),
    }
}

// A write (Submitter::write). The request's 9 words are handle, volume, region, generation, offset, buffer, length, durable and the host's tag.
#[unsafe(no_mangle)]
pub extern "C" fn table_write(
    request: &[u64; 9],
    counts: &mut [u64; 3],
    rows: &mut [u64],
    store: &mut [u64],
    free: &mut [u64],
    ready: &mut [u64],
    owners: &mut [u64],
    pool: &mut [u8],
    out: &mut [u64; 17],
)
    ensures { CallsOut (Call.Write (request_in request.now)) (parts_of counts.old rows.old store.old
        free.old ready.old owners.old pool.old)
        (parts_of counts.new rows.new store.new
        free.new ready.new owners.new pool.new) out.new }
{
    let q = abi::codes::request_of(request);
    let mut words = Words {
        store,
        free,
        ready,
        owners,
    };
    write(q, counts, rows, &mut words, pool, out)
}

// A read (Submitter::read_page), with the same 9 words.
#[unsafe(no_mangle)]
pub extern "C" fn table_read_page(
    request: &[u64; 9],
    counts: &mut [u64; 3],
    rows: &mut [u64],
    store: &mut [u64],
    free: &mut [u64],
    ready: &mut [u64],
    owners: &mut [u64],
    pool: &mut [u8],
    out: &mut [u64; 17],
)
    ensures { CallsOut (Call.ReadPage (request_in request.now)) (parts_of counts.old rows.old
        store.old free.old ready.old owners.old pool.old)
        (parts_of counts.new rows.new store.new
        free.new ready.new owners.new pool.new) out.new }
{
    let q = abi::codes::request_of(request);
    let mut words = Words {
        store,
        free,
        ready,
        owners,
    };
    read_page(q, counts, rows, &mut words, pool, out)
}

// The card's answer to a piece, by its form: 0 a count, 1 an error, 2 refused, 3 refused with an error (Table::finish and abort).
#[unsafe(no_mangle)]
pub extern "C" fn table_answer(
    qtag: u64,
    form: u64,
    count: u64,
    raw: u32,
    media: bool,
    back: bool,
    flushes: u64,
    counts: &mut [u64; 3],
    rows: &mut [u64],
    store: &mut [u64],
    free: &mut [u64],
    ready: &mut [u64],
    owners: &mut [u64],
    pool: &mut [u8],
    out: &mut [u64; 17],
)
    ensures { AnswersOut (answer_asked qtag form count raw media back flushes) (parts_of counts.old rows.old
        store.old free.old ready.old owners.old pool.old)
        (parts_of counts.new rows.new store.new
        free.new ready.new owners.new pool.new) out.new }
{
    let mut words = Words {
        store,
        free,
        ready,
        owners,
    };
    let named = abi::codes::answer_form(form, count, raw, media);
    match named {
        Some(answer) => arrived(
            qtag,
            Arrived::Answer {
                answer,
                back,
                flushes,
            },
            counts,
            rows,
            &mut words,
            pool,
            out,
        ),
        None => nameless(rows, &words, pool, out),
    }
}

// A flush result, by its form: 0 a need, 1 DurabilityUnknown, 2 Poisoned, each of the two with a cause (Table::flushed).
#[unsafe(no_mangle)]
pub extern "C" fn table_flushed(
    qtag: u64,
    form: u64,
    need: u64,
    op: u64,
    has: bool,
    raw: u32,
    counts: &mut [u64; 3],
    rows: &mut [u64],
    store: &mut [u64],
    free: &mut [u64],
    ready: &mut [u64],
    owners: &mut [u64],
    pool: &mut [u8],
    out: &mut [u64; 17],
)
    ensures { AnswersOut (flushed_asked qtag form need op has raw) (parts_of counts.old rows.old store.old
        free.old ready.old owners.old pool.old)
        (parts_of counts.new rows.new store.new
        free.new ready.new owners.new pool.new) out.new }
{
    let mut words = Words {
        store,
        free,
        ready,
        owners,
    };
    let named = abi::codes::flushed_form(form, need, op, has, raw);
    match named {
        Some(result) => arrived(
            qtag,
            Arrived::Flushed(result),
            counts,
            rows,
            &mut words,
            pool,
            out,
        ),
        None => nameless(rows, &words, pool, out),
    }
}

// The oldest completion is taken (Completions::next).
#[unsafe(no_mangle)]
pub extern "C" fn table_take(
    counts: &mut [u64; 3],
    rows: &mut [u64],
    store: &mut [u64],
    free: &mut [u64],
    ready: &mut [u64],
    owners: &mut [u64],
    pool: &mut [u8],
    out: &mut [u64; 17],
)
    ensures { CallsOut Call.Take (parts_of counts.old rows.old store.old
        free.old ready.old owners.old pool.old)
        (parts_of counts.new rows.new store.new
        free.new ready.new owners.new pool.new) out.new }
{
    let mut words = Words {
        store,
        free,
        ready,
        owners,
    };
    let reply = crate::calls::take(counts, rows, &mut words, pool);
    abi::replies::put_reply(reply, out);
}

// A region's gate is set: 0 open, 1 recycled, 2 released.
#[unsafe(no_mangle)]
pub extern "C" fn table_set_gate(
    handle: u64,
    gate: u64,
    counts: &mut [u64; 3],
    rows: &mut [u64],
    store: &mut [u64],
    free: &mut [u64],
    ready: &mut [u64],
    owners: &mut [u64],
    pool: &mut [u8],
    out: &mut [u64; 17],
)
    ensures { AnswersOut (gate_asked handle gate) (parts_of counts.old rows.old store.old
        free.old ready.old owners.old pool.old)
        (parts_of counts.new rows.new store.new
        free.new ready.new owners.new pool.new) out.new }
{
    let mut words = Words {
        store,
        free,
        ready,
        owners,
    };
    let named = abi::codes::gate_form(gate);
    match named {
        Some(gate) => set(
            Setting::Gate { handle, gate },
            counts,
            rows,
            &mut words,
            pool,
            out,
        ),
        None => nameless(rows, &words, pool, out),
    }
}

// A region's read-only mark is set.
#[unsafe(no_mangle)]
pub extern "C" fn table_set_read_only(
    handle: u64,
    on: bool,
    counts: &mut [u64; 3],
    rows: &mut [u64],
    store: &mut [u64],
    free: &mut [u64],
    ready: &mut [u64],
    owners: &mut [u64],
    pool: &mut [u8],
    out: &mut [u64; 17],
)
    ensures { CallsOut (Call.SetReadOnly handle on) (parts_of counts.old rows.old store.old
        free.old ready.old owners.old pool.old)
        (parts_of counts.new rows.new store.new
        free.new ready.new owners.new pool.new) out.new }
{
    let mut words = Words {
        store,
        free,
        ready,
        owners,
    };
    let what = Setting::ReadOnly { handle, on };
    set(what, counts, rows, &mut words, pool, out)
}

// A region's forced mark is set.
#[unsafe(no_mangle)]
pub extern "C" fn table_set_forced(
    handle: u64,
    on: bool,
    counts: &mut [u64; 3],
    rows: &mut [u64],
    store: &mut [u64],
    free: &mut [u64],
    ready: &mut [u64],
    owners: &mut [u64],
    pool: &mut [u8],
    out: &mut [u64; 17],
)
    ensures { CallsOut (Call.SetForced handle on) (parts_of counts.old rows.old store.old
        free.old ready.old owners.old pool.old)
        (parts_of counts.new rows.new store.new
        free.new ready.new owners.new pool.new) out.new }
{
    let mut words = Words {
        store,
        free,
        ready,
        owners,
    };
    let what = Setting::Forced { handle, on };
    set(what, counts, rows, &mut words, pool, out)
}

// Poison is reported, with a cause: operation 0 none, 1 read, 2 write, 3 flush (Domain::poison).
#[unsafe(no_mangle)]
pub extern "C" fn table_report_poison(
    op: u64,
    has: bool,
    raw: u32,
    counts: &mut [u64; 3],
    rows: &mut [u64],
    store: &mut [u64],
    free: &mut [u64],
    ready: &mut [u64],
    owners: &mut [u64],
    pool: &mut [u8],
    out: &mut [u64; 17],
)
    ensures { AnswersOut (poison_asked op has raw) (parts_of counts.old rows.old store.old
        free.old ready.old owners.old pool.old)
        (parts_of counts.new rows.new store.new
        free.new ready.new owners.new pool.new) out.new }
{
    let mut words = Words {
        store,
        free,
        ready,
        owners,
    };
    let named = abi::codes::cause_form(op, has, raw);
    match named {
        Some(cause) => set(Setting::Poison(cause), counts, rows, &mut words, pool, out),
        None => nameless(rows, &words, pool, out),
    }
}

// Whether a write still awaits a piece (Table::writes_live).
#[unsafe(no_mangle)]
pub extern "C" fn table_writes_live(
    counts: &[u64; 3],
    rows: &[u64],
    store: &[u64],
    free: &[u64],
    ready: &[u64],
    owners: &[u64],
    pool: &[u8],
    out: &mut [u64; 17],
)
    ensures { LooksOut Lookup.WritesLive (parts_of counts.now rows.now store.now
        free.now ready.now owners.now pool.now) out.new }
{
    let words = View {
        store,
        free,
        ready,
        owners,
    };
    let reply = crate::wholerows::lookup_whole(Lookup::WritesLive, counts, rows, &words, pool);
    abi::replies::put_whole(reply, out);
}

// The mark (frontier.rs).
#[unsafe(no_mangle)]
pub extern "C" fn table_mark(
    counts: &[u64; 3],
    rows: &[u64],
    store: &[u64],
    free: &[u64],
    ready: &[u64],
    owners: &[u64],
    pool: &[u8],
    out: &mut [u64; 17],
)
    ensures { LooksOut Lookup.Mark (parts_of counts.now rows.now store.now
        free.now ready.now owners.now pool.now) out.new }
{
    let words = View {
        store,
        free,
        ready,
        owners,
    };
    let reply = crate::wholerows::lookup_whole(Lookup::Mark, counts, rows, &words, pool);
    abi::replies::put_whole(reply, out);
}

// Turns the first n bytes left by k, as a call turns a buffer between two pieces (the slices' rotate_left): for a host that arranges bytes itself,
// and to time it.
#[unsafe(no_mangle)]
pub extern "C" fn table_turn(bytes: &mut [u8], n: usize, k: usize)
    ensures { bytes.new ≡ turned n k bytes.old }
{
    iobuf::rotate_left(bytes, n, k);
}
