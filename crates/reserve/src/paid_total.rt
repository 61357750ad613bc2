// "paid total": the paid of all rows, the prior row's too.
ghost use Rattle.std.specs.Prelude.{◌≡◌};
ghost use Rattle.reserve.specs.Lists.{PaidList, paid_sum};

pub fn paid_total(paid: &[i64]) -> i64
    requires { PaidList paid.now }
    ensures { result ≡ paid_sum paid.now }
{
    paid.iter().sum()
}
