// Random patterns: a linear congruential generator, the shares paid by age in millionths, and an incurred of its own for each age.
use crate::print::show;
use std::io::{self, Write};

// That many patterns: the first begins with the seed, and each later one where the one before it left the generator.
pub fn patterns<W: Write, F: Fn(&mut W, u64) -> io::Result<u64>>(
    output: &mut W,
    seed: u64,
    count: u64,
    pattern: F,
) -> io::Result<()>
    requires { F.IsAlwaysCallable pattern }
{
    let mut state = seed;
    for _ in 0..count {
        state = pattern(output, state)?;
    }
    Ok(())
}

pub fn ten_year_pattern<W: Write>(output: &mut W, start: u64) -> io::Result<u64> {
    let mut state = next(start);
    let rate = state % 2501;
    let mut paid = [0u64; 10];
    let mut incurred = [0u64; 10];
    let mut share = 0;
    for i in 0..10 {
        state = next(state);
        share = further(share, state % 90000);
        state = next(state);
        let amount = 1000000 + state % 9000000;
        incurred[i] = amount;
        paid[i] = part(amount, share);
    }
    show(output, b'A', rate, &paid, &incurred)?;
    Ok(state)
}

pub fn two_year_pattern<W: Write>(output: &mut W, start: u64) -> io::Result<u64> {
    let first = next(start);
    let second = next(first);
    let third = next(second);
    let share = second % 600000;
    let paid = [
        part(5000000, share),
        part(7000000, further(share, third % 400000)),
    ];
    show(output, b'J', first % 2501, &paid, &[5000000, 7000000])?;
    Ok(third)
}

fn next(state: u64) -> u64 {
    (state % 2147483648 * 1103515245 + 12345) % 2147483648
}

// The share with some more, a million at most.
fn further(share: u64, more: u64) -> u64 {
    (share % 1000001 + more % 1000001) % 1000001
}

// That many millionths of an amount.
fn part(amount: u64, share: u64) -> u64 {
    amount % 10000000000 * (share % 1000001) / 1000000
}
