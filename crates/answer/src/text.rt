// Document 01, "A run of the book's program": the text of each answer, and of DONE, put into a lent buffer.
#![tactic(auto, using(crate::proofs::Texts::joined, crate::proofs::Texts::decimal_is, crate::proofs::Texts::signed_is, crate::proofs::Texts::fact_line, crate::proofs::Texts::put_where_room), unfolding(model::specs::Answer::text, model::specs::Answer::done_text))]

ghost use Rattle.std.specs.Prelude.{true, ◌∷◌, ◌++◌, map, ◌≡◌, ◌+◌, ◌*◌, ◌≤◌, length};
ghost use Rattle.model.specs.Answer.{declared, rated, tax, summed, registered, refusal, line_of_text, text, done_text};
ghost use Rattle.model.specs.Number.{decimal};
ghost use Rattle.model.specs.Published.{published};
ghost use Rattle.state.specs.Patterns.{factor_at, pattern_at};
ghost use Rattle.ledger.specs.Answer.{answered};
ghost use Rattle.ledger.specs.declared.answer.Answer.TheVariants.{Fact};
ghost use Rattle.arrayvec.specs.ArrayVec.{array_vec_len};
ghost use Rattle.answer.specs.Put.{tabbed};
ghost use Rattle.answer.specs.Text.{has_room, PutsWithRoom};

use crate::put::{put, put_number};
use arrayvec::ArrayVec;
use factor::published::published;
use ledger::answer::Answer;
use letters::letter::ages;
use line_limits::totals::Totals;
use reserve::year_end::YearEnd;
use state::patterns::{COMPOSITE, factor_in};
use state::store::Store;

// No text is longer.
pub const MOST: usize = 320;

// No text but that of a FACT is longer.
const SHORT: usize = 128;

type Short = ArrayVec<u8, SHORT>;

// The text of an answer from a place on. The place after it is answered; where the longest text has no room, nothing is put.
pub fn put_answer(out: &mut [u8], at: usize, answer: Answer, store: &Store) -> usize
    ensures { PutsWithRoom out.old at (text (answered answer store.now)) out.new result }
{
    if !has_room(out, at) {
        return at;
    }
    match answer {
        Answer::Line { letter, opening } => put_text(out, at, &declared(letter, opening)),
        Answer::Rate { year, rate } => put_text(out, at, &rated(year, rate)),
        Answer::Fact { letter, year } => put_text(out, at, &fact(letter, year, store)),
        Answer::Tax {
            letter,
            year,
            opening,
            end,
        } => put_text(out, at, &tax(letter, year, opening, end)),
        Answer::Sum { letter, totals } => put_text(out, at, &summed(letter, totals)),
        Answer::MidTerm { year, month, rate } => put_text(out, at, &registered(year, month, rate)),
        Answer::No(question) => put_text(out, at, &refusal(question.number())),
    }
}

// "DONE closes every run: accepted, refused."
pub fn put_done(out: &mut [u8], at: usize, accepted: u64, refused: u64) -> usize
    ensures { PutsWithRoom out.old at (done_text accepted refused) out.new result }
{
    if has_room(out, at) {
        put_text(out, at, &numbers(b"DONE", &[accepted, refused]))
    } else {
        at
    }
}

// Is there room for the longest text?
pub fn has_room(out: &[u8], at: usize) -> bool
    ensures { result ≡ has_room out.now at }
{
    MOST <= out.len().saturating_sub(at)
}

fn put_text<const N: usize>(out: &mut [u8], at: usize, text: &ArrayVec<u8, N>) -> usize
    requires most { N ≤ 320 }
    requires room { has_room out.old at ≡ true }
    ensures { PutsWithRoom out.old at text.now.items out.new result }
{
    let next = at + text.len();
    out[at..next].copy_from_slice(text.as_slice());
    next
}

// A line of a word and numbers.
fn numbers(word: &[u8], list: &[u64]) -> Short
    requires { length word.now + 21 * length list.now + 1 ≤ 128 }
    ensures { result.items ≡ line_of_text (word.now ∷ map decimal list.now) }
{
    let mut text = Short::new();
    put(&mut text, word);
    for &number in list {
        put_number(&mut text, number);
    }
    text.push(b'\n');
    text
}

// How LINE, FACT, TAX and SUM begin: a word and its tab, the letter, and a number.
fn beginning<const N: usize>(word: &[u8], letter: u8, number: u64) -> ArrayVec<u8, N>
    requires { length word.now + 22 ≤ N }
    ensures bytes { result.items ≡ word.now ++ (letter ∷ 9 ∷ decimal number) }
    ensures short { array_vec_len result ≤ length word.now + 22 }
{
    let mut text = ArrayVec::new();
    put(&mut text, word);
    text.push(letter);
    put_number(&mut text, number);
    text
}

// "LINE: letter, opening."
fn declared(letter: u8, opening: u64) -> Short
    ensures { result.items ≡ text (declared letter opening) }
{
    let mut text = beginning(b"LINE\t", letter, opening);
    text.push(b'\n');
    text
}

// "RATE: year, the accident year's rate."
fn rated(year: u64, rate: u64) -> Short
    ensures { result.items ≡ text (rated year rate) }
{
    numbers(b"RATE", &[year, rate])
}

// "A PATT prints FACT: letter, year, published factors of ages 1 to 10 (1 and 2), published composite."
fn fact(letter: u8, year: u64, store: &Store) -> ArrayVec<u8, MOST>
    ensures { result.items ≡ text (answered (Fact letter year) store.now) }
{
    let mut text = beginning(b"FACT\t", letter, year);
    put_factors(&mut text, letter, year, store);
    put_factor(&mut text, letter, year, COMPOSITE, store);
    text.push(b'\n');
    text
}

// A tab and the published factor, for each age.
fn put_factors(out: &mut ArrayVec<u8, MOST>, letter: u8, year: u64, store: &Store)
    requires { array_vec_len out.old + 210 ≤ 320 }
    ensures bytes { out.new.items ≡ out.old.items ++ tabbed (map published (pattern_at store.now letter year).factors) }
    ensures short { array_vec_len out.new ≤ array_vec_len out.old + 210 }
{
    for place in 0..ages(letter) {
        put_factor(out, letter, year, place, store);
    }
}

// A tab and a published factor: that of an age, from place 0 on, or the composite at place 10.
fn put_factor(out: &mut ArrayVec<u8, MOST>, letter: u8, year: u64, place: usize, store: &Store)
    requires { array_vec_len out.old + 21 ≤ 320 }
    ensures bytes { out.new.items ≡ out.old.items ++ (9 ∷ decimal (published (factor_at store.now letter year place))) }
    ensures short { array_vec_len out.new ≤ array_vec_len out.old + 21 }
{
    put_number(out, published(factor_in(store, letter, year, place)));
}

// "TAX: letter, year, paid, opening, closing, loss."
fn tax(letter: u8, year: u64, opening: u64, end: YearEnd) -> Short
    ensures { result.items ≡ text (tax letter year end.paid opening end.closing end.loss) }
{
    let mut text = beginning(b"TAX\t", letter, year);
    put_number(&mut text, end.paid);
    put_number(&mut text, opening);
    put_number(&mut text, end.closing);
    put_number(&mut text, end.loss);
    text.push(b'\n');
    text
}

// "prints SUM, the letter, the count of closed years, all paid, and all tax-basis losses"
fn summed(letter: u8, totals: Totals) -> Short
    ensures { result.items ≡ text (summed letter totals.years totals.paid totals.losses) }
{
    let mut text = beginning(b"SUM\t", letter, totals.years);
    put_number(&mut text, totals.paid);
    put_number(&mut text, totals.losses);
    text.push(b'\n');
    text
}

// F-4: "MIDT prints its own fields back."
fn registered(year: u64, month: u64, rate: u64) -> Short
    ensures { result.items ≡ text (registered year month rate) }
{
    numbers(b"MIDT", &[year, month, rate])
}

// "NO: the refusal's number."
fn refusal(question: u64) -> Short
    ensures { result.items ≡ text (refusal question) }
{
    numbers(b"NO", &[question])
}
