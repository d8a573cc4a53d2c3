// Whole numbers: rests, and Longs made Integers.

ghost use Rattle.std.specs.Prelude.{◌≡◌, ◌≢◌, pos, int_rem, MatchOption};
ghost use Rattle.std.specs.Int.{int_wrap, w32};

/// `Math.mod`: the rest of a division towards zero, with the sign of the first number. `None` exactly where the divisor
/// is 0. Of two Integers it is an Integer.
pub fn modulo(x: i64, y: i64) -> Option<i64>
    ensures { MatchOption result (y ≡ pos 0) (λ r. (y ≢ pos 0) × (r ≡ int_rem x y)) }
{
    if y == 0 {
        return None;
    }
    Some(x.wrapping_rem(y))
}

/// `intValue` of a Long: what is left of it in an Integer's 32 bits.
pub fn wrapped(n: i64) -> i32
    ensures { result ≡ int_wrap w32 n }
{
    let low = n.rem_euclid(4_294_967_296) as u32;
    low.cast_signed()
}
