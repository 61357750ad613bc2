// "Tax-basis loss is paid total plus closing less opening, and may fall below zero."
ghost use Rattle.std.specs.Prelude.{◌≡◌};
ghost use Rattle.model.specs.YearEnd.{loss};
ghost use Rattle.reserve.specs.Figures.{Figures};

pub fn loss(paid: i64, closing: u64, opening: u64) -> i64
    requires { Figures paid closing opening }
    ensures { result ≡ loss paid closing opening }
{
    paid + closing as i64 - opening as i64
}
