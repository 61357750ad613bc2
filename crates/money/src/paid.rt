// "and paid in YEAR also down to -10,000,000,000.": what was paid in a year.
ghost use Rattle.std.specs.Prelude.{◌≡◌, ℤ, true};
ghost use Rattle.std.specs.List.{list_all};
ghost use Rattle.model.specs.Kind.{is_paid};
ghost use Rattle.kinds.specs.Within.{within};

use std::marker::Model;

#[derive(Clone, Copy)]
pub struct Paid {
    value: i64,
}

impl Model for Paid {
    ghost Value = { ℤ };

    ghost view = { λ p. p.value };

    ghost invariant = { λ p. is_paid p.value ≡ true };

    ghost inverse = { λ v. record { value = v } };
}

impl Paid {
    pub const LEAST: i64 = -10000000000;

    pub const MOST: i64 = 10000000000;

    // The paid that v is; none where it is outside the limits.
    pub fn new(v: i64) -> Option<Paid>
        ensures { result ≡ within is_paid v }
    {
        if Paid::LEAST <= v && v <= Paid::MOST {
            Some(Paid { value: v })
        } else {
            None
        }
    }

    // Is v a paid?
    pub fn contains(v: i64) -> bool
        ensures { result ≡ is_paid v }
    {
        Paid::new(v).is_some()
    }

    // Is every number of the list a paid?
    pub fn all(list: &[i64]) -> bool
        ensures { result ≡ list_all is_paid list.now }
    {
        list.iter().all(|&v| Paid::contains(v))
    }
}
