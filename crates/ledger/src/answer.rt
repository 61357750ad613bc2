// What a record is answered, and the book that it leaves.
use line_limits::totals::Totals;
use refusal::Refusal;
use reserve::year_end::YearEnd;
use state::book::Book;

// A Fact is of the pattern that the store keeps of that letter and year, so its text is put before the next call.
#[derive(Clone, Copy)]
pub enum Answer {
    Line {
        letter: u8,
        opening: u64,
    },
    Rate {
        year: u64,
        rate: u64,
    },
    Fact {
        letter: u8,
        year: u64,
    },
    Tax {
        letter: u8,
        year: u64,
        opening: u64,
        end: YearEnd,
    },
    Sum {
        letter: u8,
        totals: Totals,
    },
    No(Refusal),
    MidTerm {
        year: u64,
        month: u64,
        rate: u64,
    },
}

// The later book and the answer.
#[derive(Clone, Copy)]
pub struct Outcome {
    pub book: Book,
    pub answer: Answer,
}
