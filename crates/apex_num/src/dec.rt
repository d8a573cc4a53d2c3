// Decimals and their arithmetic.

ghost use Rattle.std.specs.Prelude.{◌≡◌, ◌≢◌, ◌↔◌, ◌^◌, ◌<◌, ◌≤◌, ℤ, pos, ◌+ℤ◌, ◌-ℤ◌, ◌*ℤ◌, ◌<ℤ◌, ◌≤ℤ◌, unsigned_abs, IfOk, MatchBool, MatchOption};
ghost use Rattle.apex_num.specs.Rounding.{Rises, Stays};
ghost use Rattle.apex_num.specs.Decimals.{IsDecimal, IsHalfEven, Answers, Rounds, distance};
ghost use Rattle.apex_num.specs.declared.dec.NumFault.TheVariants.{DivideByZero};

use std::cmp::Ordering;
use std::marker::Model;
use thiserror::Error;

/// Why a Decimal can't be had.
#[derive(Clone, Copy, Debug, PartialEq, Eq, Hash, Drop, Error)]
pub enum NumFault {
    /// The result is 10^19 millionths or more, or -10^19 or less.
    #[error("Out of range")]
    OutOfRange,
    /// The divisor is 0.
    #[error("Divide by 0")]
    DivideByZero,
    /// The text isn't an optional `-`, digits, and optionally a dot with one to six digits.
    #[error("not a decimal number")]
    NotADecimal,
}

/// A decimal number: a whole number of millionths, below 10^19 in size. Contracts see that whole number.
#[derive(Clone, Copy, Debug, PartialEq, Eq, PartialOrd, Ord, Hash, Drop)]
pub struct Dec {
    millionths: i128,
}

impl Model for Dec {
    ghost use Rattle.std.specs.Prelude.{ℤ};
    ghost use Rattle.apex_num.specs.Decimals.{IsDecimal};

    ghost Value = { ℤ };

    ghost view = { λ d. d.millionths };

    ghost inverse = { λ c. record { millionths = c } };

    ghost invariant = { λ d. IsDecimal d.millionths };
}

const MILLION: i128 = 1_000_000;

const LIMIT: u128 = 10_000_000_000_000_000_000;

impl Dec {
    /// So many millionths, or `None` exactly where their size is 10^19 or more.
    pub fn of(millionths: i128) -> Option<Dec>
        ensures { MatchOption result (IsDecimal millionths → ⊥) (λ d. (d ≡ millionths) × IsDecimal millionths) }
    {
        if millionths.unsigned_abs() < LIMIT {
            Some(Dec { millionths })
        } else {
            None
        }
    }

    /// The millionths.
    pub fn millionths(&self) -> i128
        ensures value { result ≡ self.now }
        ensures range { IsDecimal self.now }
    {
        self.millionths
    }
}

// So many millionths, or OutOfRange.
pub(crate) fn within(millionths: i128) -> Result<Dec, NumFault>
    ensures { Answers millionths result }
{
    match Dec::of(millionths) {
        Some(d) => Ok(d),
        None => Err(NumFault::OutOfRange),
    }
}

// Whether the number above the quotient is the nearer one, or the even one of two.
fn rounds_up(below: i128, rest: i128, d: i128) -> bool
    requires rest { pos 0 ≤ℤ rest }
    requires below { rest <ℤ d }
    requires small { unsigned_abs d < 2 ^ 126 }
    ensures { MatchBool result (Rises below (unsigned_abs rest) (unsigned_abs d)) (Stays below (unsigned_abs rest) (unsigned_abs d)) }
{
    match (2 * rest).cmp(&d) {
        Ordering::Less => false,
        Ordering::Equal => below % 2 != 0,
        Ordering::Greater => true,
    }
}

// n / d, rounded half-even.
fn half_even(n: i128, d: i128) -> i128
    requires size { unsigned_abs n < 10 ^ 38 }
    requires positive { pos 0 <ℤ d }
    requires small { unsigned_abs d < 2 ^ 126 }
    ensures { IsHalfEven n d result }
{
    let below = n.div_euclid(d);
    if rounds_up(below, n.rem_euclid(d), d) {
        below + 1
    } else {
        below
    }
}

// n / d, rounded half-even, where it is a Decimal.
fn rounded(n: i128, d: i128) -> Result<Dec, NumFault>
    requires size { unsigned_abs n < 10 ^ 38 }
    requires positive { pos 0 <ℤ d }
    requires small { unsigned_abs d < 2 ^ 126 }
    ensures rounded { Rounds n d result }
    ensures only { (q : ℤ) → IsHalfEven n d q → Answers q result }
{
    within(half_even(n, d))
}

/// The sum, exactly.
pub fn dec_add(a: Dec, b: Dec) -> Result<Dec, NumFault>
    ensures { Answers (a +ℤ b) result }
{
    within(a.millionths() + b.millionths())
}

/// The difference, exactly.
pub fn dec_sub(a: Dec, b: Dec) -> Result<Dec, NumFault>
    ensures { Answers (a -ℤ b) result }
{
    within(a.millionths() - b.millionths())
}

/// The product, rounded half-even to millionths.
pub fn dec_mul(a: Dec, b: Dec) -> Result<Dec, NumFault>
    ensures rounded { Rounds (a *ℤ b) (pos 1000000) result }
    ensures only { (q : ℤ) → IsHalfEven (a *ℤ b) (pos 1000000) q → Answers q result }
    ensures nearest { IfOk result (λ q. (m : ℤ) → distance (a *ℤ b) (pos 1000000) q ≤ distance (a *ℤ b) (pos 1000000) m) }
{
    rounded(a.millionths() * b.millionths(), MILLION)
}

// n / d, at a divisor of either sign.
fn quotient(n: i128, d: i128) -> Result<Dec, NumFault>
    requires size { unsigned_abs n < 10 ^ 38 }
    requires nonzero { d ≢ pos 0 }
    requires small { unsigned_abs d < 2 ^ 126 }
    ensures rounded { Rounds n d result }
    ensures only { (q : ℤ) → IsHalfEven n d q → Answers q result }
{
    if d < 0 {
        rounded(-n, -d)
    } else {
        rounded(n, d)
    }
}

/// The quotient, rounded half-even to millionths. DivideByZero exactly where the divisor is 0.
pub fn dec_div(a: Dec, b: Dec) -> Result<Dec, NumFault>
    ensures zero { (b ≡ pos 0) ↔ (result ≡ Err DivideByZero) }
    ensures rounded { b ≢ pos 0 → Rounds (a *ℤ pos 1000000) b result }
    ensures only { (q : ℤ) → b ≢ pos 0 → IsHalfEven (a *ℤ pos 1000000) b q → Answers q result }
    ensures nearest { IfOk result (λ q. (m : ℤ) → distance (a *ℤ pos 1000000) b q ≤ distance (a *ℤ pos 1000000) b m) }
{
    let d = b.millionths();
    if d == 0 {
        return Err(NumFault::DivideByZero);
    }
    quotient(a.millionths() * MILLION, d)
}
