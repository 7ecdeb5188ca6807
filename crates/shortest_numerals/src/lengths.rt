//! How many digits a number has, and how long its numeral is.

ghost use Rattle.std.specs.Prelude.{◌≡◌, ◌<◌, ◌≤◌, ℕ, ◌*◌, ◌^◌, IsTrue};
ghost use Rattle.shortest_numerals.specs.Shortest.{up, down};
ghost use Rattle.shortest_numerals.specs.Shortest as shortest;

/// Whether a number has so many digits.
pub fn is_count(digits: u64, count: u32) -> bool
    ensures { IsTrue result → (10 ^ count ≤ digits * 10) × (digits < 10 ^ count) }
{
    let Some(power) = 10u64.checked_pow(count) else {
        return false;
    };
    let Some(tens) = digits.checked_mul(10) else {
        return false;
    };
    power <= tens && digits < power
}

fn exponent_length(e: u64) -> u64
    ensures { result ≡ shortest.exponent_length e }
{
    if e < 10 {
        3
    } else if e < 100 {
        4
    } else {
        5
    }
}

fn with_exponent(count: u64, e: u64) -> u64
    requires { count ≤ 100 }
    ensures { result ≡ shortest.with_exponent count e }
{
    if 1 < count {
        count + 1 + exponent_length(e)
    } else {
        count + exponent_length(e)
    }
}

// The length of a numeral with digits before the point.
fn laid_out_large(count: u64, up: u64, down: u64) -> u64
    requires count { count ≤ 100 }
    requires up { up ≤ 1000 }
    requires down { down < count }
    ensures { result ≡ shortest.laid_out count up down }
{
    let before = count + up - down;
    if 16 < before {
        return with_exponent(count, before - 1);
    }
    if down == 0 { count + up + 2 } else { count + 1 }
}

// The length of a numeral.
fn laid_out(count: u64, up: u64, down: u64) -> u64
    requires count { count ≤ 100 }
    requires up { up ≤ 1000 }
    requires down { down ≤ 1000 }
    ensures { result ≡ shortest.laid_out count up down }
{
    if down < count {
        return laid_out_large(count, up, down);
    }
    if 4 < down - count {
        with_exponent(count, down - count + 1)
    } else {
        down + 2
    }
}

/// Whether a numeral of so many digits has this length.
pub fn is_length(length: u64, count: u32, exponent: i64) -> bool
    ensures { IsTrue result → length ≡ shortest.laid_out count (up exponent) (down exponent) }
{
    if 100 < count || exponent < -1000 || 1000 < exponent {
        return false;
    }
    let size = exponent.unsigned_abs();
    if exponent < 0 {
        length == laid_out(u64::from(count), 0, size)
    } else {
        length == laid_out(u64::from(count), size, 0)
    }
}
