// A line of output: NO and a question, or a word and all that the record asks, parted by spaces.
ghost use Rattle.std.specs.Prelude.{◌≤◌};

use form::request::Request;
use kinds::month::Month;
use kinds::rate::Rate;
use kinds::register_year::RegisterYear;
use kinds::year::Year;
use letters::letter::ages;
use money::amount::Amount;
use money::opening::Opening;
use record::read::read;
use refusal::Refusal;
use std::io::{self, Write};

// Questions 1 to 5 are asked by `read`, and 6 here: a call with numbers asks it in the book.
pub fn show<W: Write>(output: &mut W, line: &[u8]) -> io::Result<()> {
    let mut minus = [false; 62];
    let mut sizes = [0u64; 62];
    match read(line, &mut minus, &mut sizes) {
        Err(refusal) => no(output, refusal)?,
        Ok(Request::Declare(letter)) => declare(output, letter, sizes[2])?,
        Ok(Request::SetRate(_)) => set_rate(output, &sizes)?,
        Ok(Request::AddPattern(letter)) => add_pattern(output, letter, &minus, &sizes)?,
        Ok(Request::CloseYear(letter)) => close_year(output, letter, &minus, &sizes)?,
        Ok(Request::Totals(letter)) => word(output, "SUM", letter)?,
        Ok(Request::RegisterMonth(_)) => register_month(output, &sizes)?,
        Ok(Request::SetRateFromRegister(_)) => set_rate_from_register(output, sizes[1])?,
    }
    writeln!(output)
}

fn no<W: Write>(output: &mut W, refusal: Refusal) -> io::Result<()> {
    write!(output, "NO")?;
    number(output, refusal.number())
}

fn declare<W: Write>(output: &mut W, letter: u8, opening: u64) -> io::Result<()> {
    if !Opening::contains(opening) {
        return no(output, Refusal::OutsideLimits);
    }
    word(output, "LINE", letter)?;
    number(output, opening)
}

fn set_rate<W: Write>(output: &mut W, sizes: &[u64; 62]) -> io::Result<()> {
    let year = sizes[1];
    let months = &sizes[2..62];
    if !(Year::contains(year) && Rate::all(months)) {
        return no(output, Refusal::OutsideLimits);
    }
    write!(output, "RATE")?;
    number(output, year)?;
    numbers(output, months)
}

fn register_month<W: Write>(output: &mut W, sizes: &[u64; 62]) -> io::Result<()> {
    if !(RegisterYear::contains(sizes[1])
        && Month::contains(sizes[2])
        && Rate::contains(sizes[3]))
    {
        return no(output, Refusal::OutsideLimits);
    }
    write!(output, "MIDT")?;
    numbers(output, &sizes[1..4])
}

fn set_rate_from_register<W: Write>(output: &mut W, year: u64) -> io::Result<()> {
    if !Year::contains(year) {
        return no(output, Refusal::OutsideLimits);
    }
    write!(output, "RATE")?;
    number(output, year)
}

// Lists of ten ages, with zeros past those of the line.
#[tactic(auto, using(model::proofs::Ages::ages_small))]
fn add_pattern<W: Write>(
    output: &mut W,
    letter: u8,
    minus: &[bool; 62],
    sizes: &[u64; 62],
) -> io::Result<()> {
    let n = ages(letter);
    columns(output, "PATT", letter, minus, sizes, 2, 3 + 2 * n, 10 - n)
}

// Lists of eleven rows, with zeros past those of the line.
#[tactic(auto, using(model::proofs::Ages::ages_small))]
fn close_year<W: Write>(
    output: &mut W,
    letter: u8,
    minus: &[bool; 62],
    sizes: &[u64; 62],
) -> io::Result<()> {
    let n = ages(letter) + 1;
    columns(output, "YEAR", letter, minus, sizes, 3, 3 + 3 * n, 11 - n)
}

// The columns of a record of `end` fields, each with some zeros after it.
fn columns<W: Write>(
    output: &mut W,
    name: &str,
    letter: u8,
    minus: &[bool; 62],
    sizes: &[u64; 62],
    count: usize,
    end: usize,
    rest: usize,
) -> io::Result<()>
    requires { (1 ≤ count) × (count ≤ 3) × (3 ≤ end) × (end ≤ 62) }
{
    // A paid may be below zero, and its size has the limit of other money.
    if !(Year::contains(sizes[2]) && Amount::all(&sizes[3..end])) {
        return no(output, Refusal::OutsideLimits);
    }
    word(output, name, letter)?;
    number(output, sizes[2])?;
    for place in 3..3 + count {
        column(output, minus, sizes, place, count, end)?;
        zeros(output, rest)?;
    }
    Ok(())
}

// The number at a place, and each one that stands a step after the one before.
fn column<W: Write>(
    output: &mut W,
    minus: &[bool; 62],
    sizes: &[u64; 62],
    place: usize,
    step: usize,
    end: usize,
) -> io::Result<()>
    requires { (1 ≤ step) × (step ≤ 3) × (end ≤ 62) }
{
    for at in (place..end).step_by(step) {
        signed_number(output, minus[at], sizes[at])?;
    }
    Ok(())
}

fn zeros<W: Write>(output: &mut W, n: usize) -> io::Result<()> {
    for _ in 0..n {
        number(output, 0)?;
    }
    Ok(())
}

fn numbers<W: Write>(output: &mut W, list: &[u64]) -> io::Result<()> {
    for n in list {
        number(output, *n)?;
    }
    Ok(())
}

fn word<W: Write>(output: &mut W, name: &str, letter: u8) -> io::Result<()> {
    write!(output, "{name} {}", char::from(letter))
}

// A space and a number. (In one text with the word before it a buffer that is full would be written at another byte.)
fn number<W: Write>(output: &mut W, n: u64) -> io::Result<()> {
    write!(output, " {n}")
}

fn signed_number<W: Write>(output: &mut W, minus: bool, size: u64) -> io::Result<()> {
    let sign = if minus { "-" } else { "" };
    write!(output, " {sign}{size}")
}
