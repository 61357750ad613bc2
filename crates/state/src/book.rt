// What the book holds by value.
ghost use Rattle.std.specs.Prelude.{◌≡◌};
ghost use Rattle.state.specs.View.{empty_book, empty_store};

use crate::store::Store;

// What is no rate: an empty rate place.
pub const NO_RATE: u16 = 65535;

// "The book holds one rate place for each year from 1987 to 2099.", and both counts.
#[derive(Clone, Copy)]
pub struct Book {
    pub rates: [u16; 113],
    pub accepted: u64,
    pub refused: u64,
}

// "An empty book has no line, rate, pattern or closing, and both counts are 0."
pub fn empty(store: &mut Store) -> Book
    ensures { (result ≡ empty_book) × (store.new ≡ empty_store) }
{
    store.fill(0);
    Book {
        rates: [NO_RATE; 113],
        accepted: 0,
        refused: 0,
    }
}
