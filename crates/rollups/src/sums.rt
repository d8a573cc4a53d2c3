// The sum of the numbers of a field.

ghost use Rattle.std.specs.Prelude.{◌≡◌, ◌≤◌, ◌^◌, length, unsigned_abs, MatchOption};
ghost use Rattle.apex_num.specs.Decimals.{IsDecimal};
ghost use Rattle.row_meaning.specs.Rollups.{numbers, total};

use crate::numbers::number_in;
use apex_rows::Row;

// The sum over a part, which is so short that it can't pass what 128 bits hold.
fn part(field: Option<usize>, rows: &[Row]) -> i128
    requires { length rows.now ≤ 2 ^ 63 }
    ensures { result ≡ total (numbers field rows.now) }
{
    let mut sum: i128 = 0;
    let mut i = rows.len();
    'back: while i > 0 {
        i -= 1;
        if let Some(d) = number_in(field, &rows[i]) {
            sum += d;
        }
    }
    sum
}

// The sum of the numbers in millionths: that of each half, and then of both. It is none only where it isn't a Decimal.
pub(crate) fn sum(field: Option<usize>, rows: &[Row]) -> Option<i128>
    ensures { MatchOption result (IsDecimal (total (numbers field rows.now)) → ⊥) (λ d. d ≡ total (numbers field rows.now)) }
{
    let (front, back) = rows.split_at(rows.len() / 2);
    part(field, front).checked_add(part(field, back))
}
