//! The significant digits of a numeral, found without a promise: what is found is tested.

use crate::lengths::is_count;
use fast_float::Numeral;

/// Digits, how many they are, and the power of ten of the last.
#[derive(Clone, Copy)]
pub struct Digits {
    pub digits: u64,
    pub count: u32,
    pub exponent: i64,
}

// A number with more digits after it.
fn value_after(digits: &[u8], value: u64) -> Option<u64> {
    let mut value = value;
    for digit in digits {
        value = value
            .checked_mul(10)?
            .checked_add(u64::from(digit.saturating_sub(48)))?;
    }
    Some(value)
}

fn exponent_of(numeral: &Numeral) -> Option<i64> {
    let size = i64::try_from(value_after(numeral.exponent(), 0)?).ok()?;
    let fraction = i64::try_from(numeral.fraction().len()).ok()?;
    if numeral.is_exponent_negative() {
        0i64.checked_sub(size)?.checked_sub(fraction)
    } else {
        size.checked_sub(fraction)
    }
}

fn count_of(digits: u64) -> Option<u32> {
    for count in 1..19 {
        if is_count(digits, count) {
            return Some(count);
        }
    }
    None
}

// Without the zeros at the end.
fn trimmed(digits: u64, exponent: i64) -> Option<Digits> {
    let mut digits = digits;
    let mut exponent = exponent;
    for _ in 0..20 {
        if digits % 10 == 0 {
            digits = digits / 10;
            exponent = exponent.checked_add(1)?;
        }
    }
    let count = count_of(digits)?;
    Some(Digits {
        digits,
        count,
        exponent,
    })
}

/// The digits of a numeral without a sign.
pub fn digits_of(text: &[u8]) -> Option<Digits> {
    let numeral = Numeral::scan(text);
    let whole = value_after(numeral.whole(), 0)?;
    let digits = value_after(numeral.fraction(), whole)?;
    trimmed(digits, exponent_of(&numeral)?)
}
