// Decimals that are made whole or rounded.

ghost use Rattle.std.specs.Prelude.{◌≡◌, ◌≤◌, ◌^◌, ℤ, pos, ◌*ℤ◌};
ghost use Rattle.std.specs.Prelude.{FitsSigned};
ghost use Rattle.std.specs.Int.{w32};
ghost use Rattle.std.specs.Option.{SomeIff};
ghost use Rattle.apex_num.specs.Decimals.{IsHalfEven, Answers};
ghost use Rattle.number_methods.specs.Methods.{whole_of, unit, Scales};
ghost use Rattle.number_methods.specs.Values.{half_even, scaled, in_range};

use apex_num::{Dec, NumFault, dec_mul};

/// `longValue`: the Decimal without what is behind its dot, towards zero. It always is a Long.
pub fn whole(d: Dec) -> i64
    ensures { result ≡ whole_of d }
{
    (d.millionths() / 1_000_000) as i64
}

/// `intValue`: the Decimal without what is behind its dot, or `None` exactly where that is out of Integer's range.
pub fn to_integer(d: Dec) -> Option<i32>
    ensures { SomeIff result (FitsSigned w32 (whole_of d)) (whole_of d) }
{
    i32::try_from(whole(d)).ok()
}

/// `round`: the nearest whole number, of two the even one. It always is a Long.
pub fn nearest(d: Dec) -> i64
    ensures value { result ≡ half_even d 1000000 }
    ensures rounded { IsHalfEven d (pos 1000000) result }
    ensures only { (q : ℤ) → IsHalfEven d (pos 1000000) q → q ≡ result }
{
    match dec_mul(d, decimal_of(1)) {
        Ok(q) => q.millionths() as i64,
        Err(_) => unreachable!(),
    }
}

// How many millionths the last of so many digits behind the dot has.
fn unit_of(places: usize) -> u32
    requires { places ≤ 6 }
    ensures { result ≡ unit places }
{
    match places {
        0 => 1_000_000,
        1 => 100_000,
        2 => 10_000,
        3 => 1_000,
        4 => 100,
        5 => 10,
        _ => 1,
    }
}

// How often that goes into a million.
fn share_of(places: usize) -> u32
    requires { places ≤ 6 }
    ensures { result ≡ 10 ^ places }
{
    match places {
        0 => 1,
        1 => 10,
        2 => 100,
        3 => 1_000,
        4 => 10_000,
        5 => 100_000,
        _ => 1_000_000,
    }
}

// So many units.
fn scaled(q: Dec, unit: u32) -> Result<Dec, NumFault>
    ensures { Answers (q *ℤ pos unit) result }
{
    match Dec::of(q.millionths() * i128::from(unit)) {
        Some(d) => Ok(d),
        None => Err(NumFault::OutOfRange),
    }
}

fn decimal_of(n: u32) -> Dec
    ensures { result ≡ pos n }
{
    match Dec::of(i128::from(n)) {
        Some(d) => d,
        None => unreachable!(),
    }
}

/// `setScale`: the Decimal rounded half-even to so many digits behind its dot, at most six. `OutOfRange` exactly where
/// that is no Decimal.
pub fn set_scale(d: Dec, places: usize) -> Result<Dec, NumFault>
    requires { places ≤ 6 }
    ensures value { result ≡ in_range (scaled d places) }
    ensures rounded { Scales d places result }
    ensures only { (q : ℤ) → IsHalfEven d (pos (unit places)) q → Answers (q *ℤ pos (unit places)) result }
{
    match dec_mul(d, decimal_of(share_of(places))) {
        Ok(q) => scaled(q, unit_of(places)),
        Err(_) => unreachable!(),
    }
}
