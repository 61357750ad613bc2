// The lines of an input.
use crate::print::show;
use std::io::{self, Write};

// "Lines end with byte 10, which is not counted in the line, or at the end of input"
pub fn each<W: Write>(output: &mut W, input: &[u8]) -> io::Result<()> {
    for line in input.split_inclusive(|byte| *byte == b'\n') {
        show(output, line.strip_suffix(b"\n").unwrap_or(line))?;
    }
    Ok(())
}
