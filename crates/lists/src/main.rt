// lists: reads traces from standard input, one after another, and prints the replies. A line `# list` is the first of a trace. The first thirty were
// drawn and their replies given by store-io itself (compare's `list`, which hands it a write off the block in a length off the block), so that the
// gate replays them without Rust.
#![tactic(auto)]

fn main(rt: HostRuntime) {
    session::program::lists(rt.stdin(), rt.stdout());
}
