//! How many digits a number has.
ghost use Rattle.std.specs.Prelude.{◌≡◌, ◌<◌, length, decimal};

// Of a number below 10,000.
#[tactic(auto, using(crate::proofs::DigitCounts::one_digit, crate::proofs::DigitCounts::two_digits, crate::proofs::DigitCounts::three_digits, crate::proofs::DigitCounts::four_digits))]
fn count_few(n: u64) -> usize
    requires { n < 10000 }
    ensures { result ≡ length (decimal n) }
{
    if n < 10 {
        1
    } else if n < 100 {
        2
    } else if n < 1000 {
        3
    } else {
        4
    }
}

/// How many decimal digits a number has, four looked at in a turn.
#[tactic(auto, using(crate::proofs::DigitCounts::four_more))]
pub fn count_digits(n: u64) -> usize
    ensures { result ≡ length (decimal n) }
{
    let mut count = 0;
    let mut left = n;
    while left >= 10_000 {
        left /= 10_000;
        count += 4;
    }
    count + count_few(left)
}
