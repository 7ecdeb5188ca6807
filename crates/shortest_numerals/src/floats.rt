//! Digits and a power of ten, read as a float.

ghost use Rattle.std.specs.Prelude.{◌≡◌, ◌<◌, ◌*◌, ◌/◌, ◌+◌, ◌^◌, IsTrue};
ghost use Rattle.std.specs.Float.{◌<ᶠ◌, ◌≤ᶠ◌};
ghost use Rattle.shortest_numerals.specs.Shortest.{up, down, read_as};

// The float that is nearest.
fn read(digits: u64, exponent: i64) -> f64
    ensures { result ≡ read_as digits (up exponent) (down exponent) }
{
    fast_float::from_parts(false, digits, exponent)
}

/// Whether digits are read as a float.
pub fn reads_as(digits: u64, exponent: i64, x: f64) -> bool
    ensures { IsTrue result → (read_as digits (up exponent) (down exponent) ≤ᶠ x) × (x ≤ᶠ read_as digits (up exponent) (down exponent)) }
{
    let y = read(digits, exponent);
    y <= x && x <= y
}

/// Whether neither of the numbers beside it that have one digit fewer is read as the float.
pub fn none_beside(digits: u64, exponent: i64, x: f64) -> bool
    requires { digits < 10 ^ 18 }
    ensures { IsTrue result → (read_as (digits / 10 * 10) (up exponent) (down exponent) <ᶠ x) × (x <ᶠ read_as (digits / 10 * 10 + 10) (up exponent) (down exponent)) }
{
    let front = digits / 10 * 10;
    read(front, exponent) < x && x < read(front + 10, exponent)
}
