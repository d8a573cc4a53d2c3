// Digits to the base 62: 0 to 9, A to Z, a to z.

ghost use Rattle.std.specs.Prelude.{◌≡◌, ◌<◌, ◌≤◌, ◌∷◌, [], length, slice_index, All};
ghost use Rattle.apex_num.specs.Ids.{IsAlphanumeric};
ghost use Rattle.row_meaning.specs.Users.{digit, four};
ghost use Rattle.record_ids.specs.Ids.{most};

// The digit of a number.
fn digit(n: usize) -> u8
    requires { n < 62 }
    ensures value { result ≡ digit n }
    ensures form { IsAlphanumeric result }
{
    if n < 10 {
        b'0' + n as u8
    } else if n < 36 {
        b'A' + (n - 10) as u8
    } else {
        b'a' + (n - 36) as u8
    }
}

/// Four digits of a number.
pub fn four(n: usize) -> [u8; 4]
    ensures value { result ≡ four n }
    ensures form { All IsAlphanumeric result }
{
    [
        digit(n / 238_328 % 62),
        digit(n / 3_844 % 62),
        digit(n / 62 % 62),
        digit(n % 62),
    ]
}

// The number of a digit.
fn value(byte: u8) -> usize
    requires { IsAlphanumeric byte }
    ensures value { byte ≡ digit result }
    ensures small { result < 62 }
{
    if byte < b'A' {
        (byte - b'0') as usize
    } else if byte < b'a' {
        (byte - b'A') as usize + 10
    } else {
        (byte - b'a') as usize + 36
    }
}

/// The number of four digits.
pub fn number(digits: &[u8]) -> usize
    requires count { length digits.now ≡ 4 }
    requires form { All IsAlphanumeric digits.now }
    ensures value { digits.now ≡ four result }
    ensures small { result < most }
{
    238_328 * value(digits[0]) + 3_844 * value(digits[1]) + 62 * value(digits[2]) + value(digits[3])
}
