// The book program on 6,000 random records, every answer and every refusal among them.
#![tactic(auto)]

fn main(rt: HostRuntime) {
    console::run(rt)
}
