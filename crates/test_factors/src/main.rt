// Kept factors and composites with all ten decimals, for the exhibits of source 000, for extremes and for random patterns: FACT shows six decimals only.
#![tactic(auto)]

mod cases;
mod print;
mod random;

use std::io::{self, BufWriter, Write};

fn main(rt: HostRuntime) -> io::Result<()> {
    let mut output = BufWriter::new(rt.alloc(), rt.stdout())?;
    cases::given_patterns(&mut output)?;
    random::patterns(&mut output, 1987, 100, random::ten_year_pattern)?;
    random::patterns(&mut output, 2099, 50, random::two_year_pattern)?;
    output.flush()
}
