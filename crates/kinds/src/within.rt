// "The limits belong to their kind: a rate, a year, an amount.": one type for all kinds of whole numbers, with the limits as its parameter.
ghost use Rattle.std.specs.Prelude.{◌≡◌, Bool, true, ◌&&◌, ℕ, leb};
ghost use Rattle.std.specs.List.{list_all};
ghost use Rattle.kinds.specs.Within.{within};

use std::marker::{Model, PhantomData};

// The limits of a kind.
pub trait Limits: Copy {
    const LEAST: u64;

    const MOST: u64;

    ghost LEAST: { ℕ };

    ghost MOST: { ℕ };

    // What the documents say of the kind.
    ghost allow: { ℕ → Bool };

    // The constants are these limits.
    ghost limits: { (n : ℕ) → allow n ≡ (leb LEAST n && leb n MOST) };
}

// A number within the limits. A contract sees the number alone.
#[derive(Clone, Copy)]
pub struct Within<L: Limits> {
    value: u64,
    limits: PhantomData<L>,
}

impl<L: Limits> Model for Within<L> {
    ghost Value = { ℕ };

    ghost view = { λ w. w.value };

    ghost invariant = { λ w. L.allow w.value ≡ true };

    ghost inverse = { λ n. record { value = n; limits = record {} } };
}

impl<L: Limits> Within<L> {
    // The number of this kind that n is; none where it is outside the limits.
    pub fn new(n: u64) -> Option<Within<L>>
        ensures { result ≡ within L.allow n }
    {
        if L::LEAST <= n && n <= L::MOST {
            Some(Within {
                value: n,
                limits: PhantomData,
            })
        } else {
            None
        }
    }

    pub fn number(self) -> u64
        ensures value { result ≡ self }
        ensures within { L.allow result ≡ true }
    {
        self.value
    }

    // Is n a number of this kind?
    pub fn contains(n: u64) -> bool
        ensures { result ≡ L.allow n }
    {
        Within::<L>::new(n).is_some()
    }

    // Is every number of the list of this kind?
    pub fn all(list: &[u64]) -> bool
        ensures { result ≡ list_all L.allow list.now }
    {
        list.iter().all(|&n| Within::<L>::contains(n))
    }
}
