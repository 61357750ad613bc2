// The payments after the ages that a pattern record gives.
ghost use Rattle.std.specs.Prelude.{◌≡◌, ◌++◌, take, replicate, ◌+◌, ◌≤◌};
ghost use Rattle.model.specs.Basics.{sum};
ghost use Rattle.model.specs.Tail.{tail_cap, ten_year_tail, two_year_tail, payment_at};

// "Ten-year tail: ages 11 to 15 each pay the smaller of the payment at age 10" (by F-1: of the cap) "and what is unpaid before them. Age 16 pays the rest."
pub fn ten_year_tail(pay: [u64; 16], unpaid: u64) -> [u64; 16]
    requires { sum (take 10 pay) ≤ 200000000 }
    ensures { result ≡ take 10 pay ++ ten_year_tail (payment_at 8 pay) (payment_at 9 pay) (payment_at 10 pay) unpaid }
{
    let cap = tail_cap(pay[7], pay[8], pay[9]);
    let mut paid = pay;
    let mut left = unpaid;
    for at in 10..15 {
        let payment = cap.min(left);
        paid[at] = payment;
        left -= payment;
    }
    paid[15] = left;
    paid
}

// "Two-year tail: ages 3 and 4 each pay half of what is unpaid after age 2, which is even." There are zeros after them.
pub fn two_year_tail(pay: [u64; 16], unpaid: u64) -> [u64; 16]
    ensures { result ≡ take 2 pay ++ two_year_tail unpaid ++ replicate 12 0 }
{
    let mut paid = [0u64; 16];
    paid[0] = pay[0];
    paid[1] = pay[1];
    paid[2] = unpaid / 2;
    paid[3] = unpaid / 2;
    paid
}

// "where the payment at age 10 is 0, the cap for ages 11 to 15 is the mean of the payments at ages 8, 9 and 10, rounded down to a half unit"
fn tail_cap(eighth: u64, ninth: u64, tenth: u64) -> u64
    requires { eighth + ninth + tenth ≤ 200000000 }
    ensures { result ≡ tail_cap eighth ninth tenth }
{
    if tenth == 0 {
        return (eighth + ninth + tenth) / 3;
    }
    tenth
}
