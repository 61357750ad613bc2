// The cumulative ratio of an age.
ghost use Rattle.std.specs.Prelude.{◌≡◌};
ghost use Rattle.model.specs.Pattern.{age, cumulative_ratio};
ghost use Rattle.payments.specs.Ratio.{Sound};

// "The cumulative ratio is paid × 100,000,000 / incurred, rounded half up."
pub fn cumulative_ratio(paid: u64, incurred: u64) -> u64
    requires { Sound paid incurred }
    ensures { result ≡ cumulative_ratio (age paid incurred) }
{
    (2 * (paid * 100000000) + incurred) / (2 * incurred)
}
