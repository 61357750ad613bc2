// The book program on limits and one past them, each refusal alone, and lines and bytes of every sort.
#![tactic(auto)]

fn main(rt: HostRuntime) {
    console::run(rt)
}
