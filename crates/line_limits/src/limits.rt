// The figures of a line read through their limits.
ghost use Rattle.std.specs.Prelude.{◌≡◌};
ghost use Rattle.line_limits.specs.Limits.{opening_in, closing_in, closed_in, patterns_in, limited_of, line_in};

use crate::line::{Line, Patterns};
use kinds::within::Limits;
use kinds::year::Year;
use letters::letter::ages;
use money::closing::{Closing, ClosingLimits};
use money::opening::{Opening, OpeningLimits};

// The line in six cells, each read through its limit, and what lies past it as the limit.
pub fn line_in(letter: u8, cells: [u64; 6]) -> Line
    ensures { result ≡ line_in letter cells }
{
    let line = Line {
        declared: cells[0] > 0,
        opening: cells[1],
        closed: Some(cells[2]),
        closing: cells[3],
        patterns: Patterns {
            last: cells[4],
            count: cells[5],
        },
    };
    limited(letter, line)
}

// A line as it is read: each figure through its limit.
#[tactic(auto, unfolding(crate::specs::Limits::limited_of))]
pub fn limited(letter: u8, line: Line) -> Line
    ensures { result ≡ limited_of letter line }
{
    let patterns = patterns_in(letter, line.patterns);
    Line {
        declared: line.declared,
        opening: opening_in(line.opening),
        closed: closed_in(patterns, line.closed),
        closing: closing_in(line.closing),
        patterns,
    }
}

// A declared opening: past its limit it is read as the limit.
fn opening_in(cell: u64) -> u64
    ensures { result ≡ opening_in cell }
{
    Opening::new(cell).map_or(OpeningLimits::MOST, |opening| opening.number())
}

// A closing: past its limit it is read as the limit.
fn closing_in(cell: u64) -> u64
    ensures { result ≡ closing_in cell }
{
    Closing::new(cell).map_or(ClosingLimits::MOST, |closing| closing.number())
}

// The last closed year is read only where a pattern is kept, and not after that pattern's year.
fn closed_in(patterns: Patterns, closed: Option<u64>) -> Option<u64>
    ensures { result ≡ closed_in patterns closed }
{
    let year = closed?;
    (patterns.count > 0 && year <= patterns.last && Year::contains(year)).then_some(year)
}

// The patterns that a line keeps: none where the year of the last one is no year, and at most one for each age.
fn patterns_in(letter: u8, patterns: Patterns) -> Patterns
    ensures { result ≡ patterns_in letter patterns }
{
    let count = if Year::contains(patterns.last) {
        patterns.count.min(ages(letter) as u64)
    } else {
        0
    };
    Patterns { count, ..patterns }
}
