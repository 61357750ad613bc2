// The discounting book: records from standard input, answers to standard output.
#![tactic(auto)]

fn main(rt: HostRuntime) {
    console::run(rt)
}
