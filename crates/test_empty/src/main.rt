// The book program on an empty input.
#![tactic(auto)]

fn main(rt: HostRuntime) {
    console::run(rt)
}
