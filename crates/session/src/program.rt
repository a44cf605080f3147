// The programs replay and lists: lines are read from standard input until it ends, and answered. lists has many traces, one after another: a line
// `# list` is the first of a trace, which starts from nothing, and whose lines are counted from it.
use crate::Stage;
use crate::turn::Running;
use fields::reader::Reader;
use input::Input;
use memory::words::Words;
use std::io::{Stdin, Stdout};

// The memory of a program's own: the line and the bytes read last, and what the table is opened in.
#[derive(Drop)]
struct Memory {
    line: [u8; 4096],
    chunk: [u8; 4096],
    plan: [u64; 560],
    store: [u64; 608],
    free: [u64; 64],
    ready: [u64; 1025],
    owners: [u64; 4096],
    pool: [u8; 1048576],
}

// Whether a line is `# list`.
fn is_list(r: Reader, line: &[u8; 4096]) -> bool {
    !r.long && r.kept == 6 && line.starts_with(b"# list")
}

// The first line of a trace.
fn first(i: Input) -> Input {
    Input { number: 1, ..i }
}

// Goes on in the input; a complete line starts a trace, or is answered.
fn list_turn(stdin: Stdin, stdout: Stdout, r: Running, m: &mut Memory) -> Running {
    let from = input::next(stdin, r.from, &mut m.line, &mut m.chunk);
    if !from.whole {
        return crate::turn::moved(r, from);
    }
    if is_list(from.reader, &m.line) {
        m.pool = [0u8; 1048576];
        return crate::turn::begun(first(from));
    }
    let mut words = Words {
        store: &mut m.store,
        free: &mut m.free,
        ready: &mut m.ready,
        owners: &mut m.owners,
    };
    let now = crate::turn::moved(r, from);
    crate::turn::answer(stdout, now, &m.line, &mut m.plan, &mut words, &mut m.pool)
}

// Goes on in the input, and answers a complete line.
fn replay_turn(stdin: Stdin, stdout: Stdout, r: Running, m: &mut Memory) -> Running {
    let mut words = Words {
        store: &mut m.store,
        free: &mut m.free,
        ready: &mut m.ready,
        owners: &mut m.owners,
    };
    crate::turn::turn(
        stdin,
        stdout,
        r,
        &mut m.line,
        &mut m.chunk,
        &mut m.plan,
        &mut words,
        &mut m.pool,
    )
}

// Takes turns until the program ends. A loop has to end: it has as many turns as no run uses up.
fn run<E, T>(ends: E, turn: T)
where
    E: Fn(Stage, Input) -> bool,
    T: Fn(Running, &mut Memory) -> Running,
    requires ends { E.IsAlwaysCallable ends }
    requires turn { T.IsAlwaysCallable turn }
{
    let mut m = Memory {
        line: [0; 4096],
        chunk: [0; 4096],
        plan: [0; 560],
        store: [0; 608],
        free: [0; 64],
        ready: [0; 1025],
        owners: [0; 4096],
        pool: [0; 1048576],
    };
    let mut now = crate::turn::begun(input::begin());
    for _ in 0..u64::MAX {
        if ends(now.stage, now.from) {
            return;
        }
        now = turn(now, &mut m);
    }
}

// Answers a trace.
pub fn replay(stdin: Stdin, stdout: Stdout) {
    run(crate::turn::over, |r, m| replay_turn(stdin, stdout, r, m));
}

// Answers traces, one after another: after `limit` another may follow.
pub fn lists(stdin: Stdin, stdout: Stdout) {
    run(|_, from| from.ended, |r, m| list_turn(stdin, stdout, r, m));
}
