//! The sums of a ledger.
ghost use Rattle.std.specs.Prelude.{◌≡◌};
ghost use Rattle.log_reader.specs.Reading.{wide_of};

/// The number below 2^128 that digits write, leading zeros or not.
pub fn wide_number(word: &[u8]) -> Option<u128>
    ensures { result ≡ wide_of word.now }
{
    let mut number = 0u128;
    let mut rest = word;
    while let [digit, after @ ..] = rest {
        if !digit.is_ascii_digit() {
            return None;
        }
        let Some(tens) = number.checked_mul(10) else {
            return None;
        };
        let Some(next) = tens.checked_add(u128::from(*digit - b'0')) else {
            return None;
        };
        number = next;
        rest = after;
    }
    Some(number)
}
