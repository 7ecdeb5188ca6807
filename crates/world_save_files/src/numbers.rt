//! The test that a number stands as the libraries `itoa` and `ryu` write it, with the fewest digits.

ghost use Rattle.std.specs.Prelude.{◌≡◌, ◌≤◌, IsTrue, Some, length};
ghost use Rattle.std.specs.Float.{binary64, float_is_finite};
ghost use Rattle.fast_float.specs.Parse.{parse_float};
ghost use Rattle.ryu.specs.Plain.{IsPlusNumber};
ghost use Rattle.json.specs.Token.{number as number_token};
ghost use Rattle.world_save_terms.specs.Compact.{most_number, IsLaidOut};

use shortest_numerals::is_shortest;

// A whole number that is not below zero.
fn is_positive(number: &str) -> bool
    ensures { IsTrue result → IsLaidOut (number_token number.now) }
{
    match fast_float::parse_u64(number.as_bytes()) {
        Ok(n) => itoa::Buffer::new().format(n) == number,
        Err(_) => false,
    }
}

// A whole number.
fn is_signed(number: &str) -> bool
    ensures { IsTrue result → IsLaidOut (number_token number.now) }
{
    match fast_float::parse_i64(number.as_bytes()) {
        Ok(n) => itoa::Buffer::new().format(n) == number,
        Err(_) => false,
    }
}

// Whether a float is written so.
fn is_written(number: &str, x: f64) -> bool
    ensures { IsTrue result → IsTrue (float_is_finite x) × IsPlusNumber 16 4 number.now × (length number.now ≤ most_number) }
{
    x.is_finite() && ryu::Buffer::new().format_finite_with_plus(x) == number
}

// Whether a float is written so, with the fewest digits.
fn is_fewest(number: &str, x: f64) -> bool
    requires { parse_float binary64 number.now ≡ Some x }
    ensures { IsTrue result → IsLaidOut (number_token number.now) }
{
    is_written(number, x) && is_shortest(number, x)
}

// A number that is no whole one.
fn is_float(number: &str) -> bool
    ensures { IsTrue result → IsLaidOut (number_token number.now) }
{
    match fast_float::parse::<f64, &str>(number) {
        Ok(x) => is_fewest(number, x),
        Err(_) => false,
    }
}

/// Whether a number is written as the libraries write it, with the fewest digits that read back as it.
pub fn is_laid_out(number: &str) -> bool
    ensures { IsTrue result → IsLaidOut (number_token number.now) }
{
    is_positive(number) || is_signed(number) || is_float(number)
}
