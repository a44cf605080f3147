// replay: reads a trace from standard input, an opening and the calls made since, and prints the replies. What a line says and how it is answered
// stands in the crate session.
#![tactic(auto)]

fn main(rt: HostRuntime) {
    session::program::replay(rt.stdin(), rt.stdout());
}
