// A line of output: the rate, the question that is answered no (0: none), the kept factors and the composite, or zeros, parted by spaces. A number that is no rate has its question alone.
use factor::pattern::discount;
use half_year::half_year;
use kinds::rate::Rate;
use refusal::Refusal;
use std::io::{self, Write};

pub fn show<W: Write>(
    output: &mut W,
    letter: u8,
    rate: u64,
    paid: &[u64],
    incurred: &[u64],
) -> io::Result<()> {
    write!(output, "{rate}")?;
    match Rate::new(rate) {
        Some(given) => show_pattern(output, letter, given, paid, incurred)?,
        None => write!(output, " {}", Refusal::OutsideLimits.number())?,
    }
    output.write_all(b"\n")
}

// The half-year factor itself is the hint.
fn show_pattern<W: Write>(
    output: &mut W,
    letter: u8,
    rate: Rate,
    paid: &[u64],
    incurred: &[u64],
) -> io::Result<()> {
    match discount(letter, rate, half_year(rate), paid, incurred) {
        Ok(pattern) => figures(output, 0, &pattern.factors, pattern.composite),
        Err(refusal) => figures(output, refusal.number(), &[0; 10], 0),
    }
}

fn figures<W: Write>(
    output: &mut W,
    question: u64,
    factors: &[u64; 10],
    composite: u64,
) -> io::Result<()> {
    write!(output, " {question}")?;
    for factor in factors {
        write!(output, " {factor}")?;
    }
    write!(output, " {composite}")
}
