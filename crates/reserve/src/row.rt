// A row: its gross and its discounted value.
ghost use Rattle.std.specs.Prelude.{◌≡◌, ◌≤◌};
ghost use Rattle.model.specs.Published.{published};
ghost use Rattle.model.specs.Row.{gross, discounted, stated};

use factor::published::published;
use kinds::factor::Factor;
use money::amount::Amount;

// "Gross is unpaid plus tabular."
pub fn gross(unpaid: Amount, tabular: Amount) -> u64
    ensures sum { result ≡ gross (stated unpaid tabular) }
    ensures limit { result ≤ 20000000000 }
{
    unpaid.number() + tabular.number()
}

// "Discounted is the smaller of unpaid and (gross × published + 500,000) / 1,000,000 rounded down."
pub fn discounted(unpaid: Amount, tabular: Amount, kept: Factor) -> u64
    ensures { result ≡ discounted (stated unpaid tabular) (published kept) }
{
    let most = unpaid.number();
    let factor = published(kept.number());
    let value = (gross(unpaid, tabular) * factor + 500000) / 1000000;
    value.min(most)
}
