//! Numbers as words.
ghost use Rattle.query_rules.specs.Words.{number_of};
ghost use Rattle.std.specs.Prelude.{◌≡◌, ◌<◌, ◌&&◌, ◌^◌, Some, None, IfSome, [], ◌∷◌, nat_lt, true, if◌then◌else◌};
ghost use Rattle.std.specs.Str.{all_ascii_digits};
ghost use Rattle.std.specs.Str.Parse.{digits_value, digits_value_after};

// The largest number behind which four more digits always fit.
const FOUR_MORE_FIT: u64 = (u64::MAX - 9_999) / 10_000;

// The number that two digits write.
fn two_digits(ten: u8, one: u8) -> Option<u64>
    ensures digits { IfSome result (λ n. all_ascii_digits (ten ∷ one ∷ []) ≡ true) }
    ensures value { IfSome result (λ n. n ≡ digits_value 10 (ten ∷ one ∷ [])) }
    ensures below { IfSome result (λ n. n < 100) }
{
    if ten.is_ascii_digit() && one.is_ascii_digit() {
        Some(10 * u64::from(ten - b'0') + u64::from(one - b'0'))
    } else {
        None
    }
}

// Takes digits off a word's front, four at a time, as long as the number surely fits: what they write, and what is left of
// the word. One after the other, each digit would wait for the one before it.
fn take_fours(word: &[u8]) -> (u64, &[u8])
    ensures digits { all_ascii_digits word.now ≡ all_ascii_digits result.1.now }
    ensures value { digits_value 10 word.now ≡ digits_value_after 10 result.0 result.1.now }
{
    let mut number = 0u64;
    let mut rest = word;
    while let [a, b, c, d, after @ ..] = rest {
        let (Some(high), Some(low)) = (two_digits(*a, *b), two_digits(*c, *d)) else {
            break;
        };
        if number > FOUR_MORE_FIT {
            break;
        }
        number = 10_000 * number + (100 * high + low);
        rest = after;
    }
    (number, rest)
}

// The number that digits write, leading zeros or not.
fn digits(word: &[u8]) -> Option<u64>
    ensures { result ≡ (if all_ascii_digits word.now && nat_lt (digits_value 10 word.now) (2 ^ 64) then Some (digits_value 10 word.now) else None) }
{
    let (mut number, mut rest) = take_fours(word);
    while let [digit, after @ ..] = rest {
        if !digit.is_ascii_digit() {
            return None;
        }
        let Some(tens) = number.checked_mul(10) else {
            return None;
        };
        let Some(next) = tens.checked_add(u64::from(*digit - b'0')) else {
            return None;
        };
        number = next;
        rest = after;
    }
    Some(number)
}

/// The number that a word writes: `0`, or a digit 1 to 9 followed by digits, at most 2^64 - 1.
pub fn number(word: &[u8]) -> Option<u64>
    ensures { result ≡ number_of word.now }
{
    if word.len() == 1 || (!word.is_empty() && word[0] > b'0') {
        digits(word)
    } else {
        None
    }
}
