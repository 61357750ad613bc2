// The book program on exhibits 9, 10 and 11 of source 000.
#![tactic(auto)]

fn main(rt: HostRuntime) {
    console::run(rt)
}
