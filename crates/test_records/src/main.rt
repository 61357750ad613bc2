// Reads the lines of standard input and prints what each one asks, or the question that is answered no.
#![tactic(auto)]

mod lines;
mod print;

use std::io::{self, BufWriter, Read, Write};

// The longest input that is read.
const MOST: u64 = 65536;

fn main(rt: HostRuntime) -> io::Result<()> {
    let mut input = Vec::new(rt.alloc());
    rt.stdin().take(MOST).read_to_end(&mut input)?;
    let mut output = BufWriter::new(rt.alloc(), rt.stdout())?;
    lines::each(&mut output, &input)?;
    output.flush()
}
