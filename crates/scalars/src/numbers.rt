ghost use Rattle.std.specs.Prelude.{◌≡◌};
ghost use Rattle.scalars.specs.Numbers.{opposed, Quotient, Modulus, OneWay, KeepsBounds};

// The quotient of a by b, rounded down; nothing where b is 0, or where the quotient does not fit.
pub fn floor_div(a: i64, b: i64) -> Option<i64>
    ensures law { Quotient a b result }
    ensures unique { OneWay a b }
    ensures bounds { KeepsBounds a b result }
{
    let quotient = a.checked_div(b)?;
    if are_opposed(a.wrapping_rem(b), b) {
        Some(quotient - 1)
    } else {
        Some(quotient)
    }
}

// The modulus of a by b, what a is more than b times their quotient: 0, or between 0 and b. Nothing where b is 0.
pub fn floor_mod(a: i64, b: i64) -> Option<i64>
    ensures law { Modulus a b result }
    ensures unique { OneWay a b }
    ensures bounds { KeepsBounds a b result }
{
    if b == 0 {
        return None;
    }
    let remainder = a.wrapping_rem(b);
    if are_opposed(remainder, b) {
        Some(remainder + b)
    } else {
        Some(remainder)
    }
}

// Whether one is below 0 and the other above. A remainder so opposed to the divisor tells that the quotient was rounded up.
fn are_opposed(m: i64, b: i64) -> bool
    ensures { result ≡ opposed m b }
{
    (m < 0 && 0 < b) || (0 < m && b < 0)
}
