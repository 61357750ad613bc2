// The book program on two lines that are closed over many years with unequal rates.
#![tactic(auto)]

fn main(rt: HostRuntime) {
    console::run(rt)
}
