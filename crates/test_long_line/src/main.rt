// The book program on lines of a mebibyte, the last one without byte 10.
#![tactic(auto)]

fn main(rt: HostRuntime) {
    console::run(rt)
}
