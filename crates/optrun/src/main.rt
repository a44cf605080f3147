// optrun: document 01's opening and a flush count of 0. It reads lines from standard input and answers each: `piece QTAG OFFSET COUNT`, `no` and the
// number, what a taking took, or `bad` and the line's number. What a line says and how it is answered stands in the crate runner; here
// lines are read until the input ends.
#![tactic(auto)]

use memory::words::Words;
use runner::Host;
use runner::turn::Running;
use std::io::{Stdin, Stdout};

// Reads lines until the input ends, and answers each. A loop has to end: it has as many turns as no run uses up.
fn run(stdin: Stdin, stdout: Stdout, r: Running, words: &mut Words, pool: &mut [u8]) {
    let mut line = io::buffer();
    let mut chunk = io::buffer();
    let mut now = r;
    for _ in 0..u64::MAX {
        if now.from.ended {
            return;
        }
        now = runner::turn::turn(stdin, stdout, now, &mut line, &mut chunk, words, pool);
    }
}

fn main(rt: HostRuntime) {
    let mut rows = [optable::freed_row(0); 64];
    let mut store = [0u64; 118];
    let mut free = [0u64; 2];
    let mut ready = [0u64; 33];
    let mut owners = [0u64; 3];
    let mut pool = [0u8; 6144];
    let mut words = Words {
        store: &mut store,
        free: &mut free,
        ready: &mut ready,
        owners: &mut owners,
    };
    let plan = runner::turn::plan();
    let opened = submitter::open(runner::figures(), &plan, &mut rows, &mut words, &pool);
    let Ok(counts) = opened else {
        let _ = rt.stdout().write_all(b"no 13\n");
        return;
    };
    let r = Running {
        host: Host { counts, rows },
        from: input::begin(),
    };
    run(rt.stdin(), rt.stdout(), r, &mut words, &mut pool);
}

#[cfg(test)]
mod tests {
    use super::*;

    // A host that lends its words on knows that each part is as long after a call as before: it looks at the last word of each.
    #[test]
    fn parts_keep_their_lengths(rt: HostRuntime) {
        let mut rows = [optable::freed_row(0); 2];
        let mut counts = opening::fresh();
        let mut store = [0u64; 118];
        let mut free = [0u64; 2];
        let mut ready = [0u64; 33];
        let mut owners = [0u64; 3];
        let mut pool = [0u8; 6144];
        let mut words = Words {
            store: &mut store,
            free: &mut free,
            ready: &mut ready,
            owners: &mut owners,
        };
        let _ = submitter::call(
            model::Call::Take,
            &mut counts,
            &mut rows,
            &mut words,
            &mut pool,
        );
        let last = [
            words.store[117],
            words.free[1],
            words.ready[32],
            words.owners[2],
        ];
        assert_eq!(rt; last, [0, 0, 0, 0]);
    }
}
