//! The reader of decimal numbers.

ghost use Rattle.std.specs.Prelude.{◌≡◌, ◌+◌, ◌*◌, ◌<◌, ◌^◌, true};
ghost use Rattle.std.specs.Option.{SomeIff};
ghost use Rattle.std.specs.List.{list_all};
ghost use Rattle.std.specs.Str.Parse.{digits_value};
ghost use Rattle.decimal_text.specs.Decimal.{is_digit, is_plain, number_of, int_of, positive, negative};
ghost use Rattle.decimal_text.specs.Reads.{ReadsNumber};

/// Why a text is no number of 64 bits.
#[derive(Clone, Copy, Debug, PartialEq, Eq)]
pub enum NumberFault {
    /// It is no number in decimal.
    NoNumber,
    /// It is a number of more than 64 bits.
    TooLarge,
}

fn is_digit(byte: u8) -> bool
    ensures { result ≡ is_digit byte }
{
    byte.is_ascii_digit()
}

fn all_digits(text: &[u8]) -> bool
    ensures { result ≡ list_all is_digit text.now }
{
    text.iter().all(|b| is_digit(*b))
}

/// Whether a text is digits without a leading zero, or one zero.
fn is_plain(text: &[u8]) -> bool
    ensures { result ≡ is_plain text.now }
{
    match text.split_first() {
        None => false,
        Some((byte, rest)) => is_digit(*byte)
            && all_digits(rest)
            && (*byte != b'0' || rest.is_empty()),
    }
}

/// The number that digits write, where it has 64 bits.
fn value_of(digits: &[u8]) -> Option<u64>
    requires { list_all is_digit digits.now ≡ true }
    ensures { SomeIff result (digits_value 10 digits.now < 2 ^ 64) (digits_value 10 digits.now) }
{
    let mut value = 0u64;
    for byte in digits {
        value = with_digit(value, *byte - b'0')?;
    }
    Some(value)
}

/// A number with one more digit behind it.
fn with_digit(value: u64, digit: u8) -> Option<u64>
    ensures { SomeIff result (value * 10 + digit < 2 ^ 64) (value * 10 + digit) }
{
    value.checked_mul(10)?.checked_add(u64::from(digit))
}

/// The number that a text writes.
///
/// # Errors
///
/// `NoNumber` exactly where the text is no number in decimal; `TooLarge` exactly where it is one of more than 64
/// bits, however many digits it has. It takes time linear in the text.
pub fn read_number(text: &[u8]) -> Result<u64, NumberFault>
    ensures { ReadsNumber result (number_of text.now) }
{
    if !is_plain(text) {
        return Err(NumberFault::NoNumber);
    }
    value_of(text).ok_or(NumberFault::TooLarge)
}

/// The whole number that a text writes, where it is one from -2^63 to 2^63 - 1.
pub fn read_int(text: &[u8]) -> Option<i64>
    ensures { result ≡ int_of text.now }
{
    match text.split_first() {
        None => None,
        Some((byte, rest)) => {
            if *byte == b'-' {
                negative(read_number(rest).ok())
            } else {
                positive(read_number(text).ok())
            }
        }
    }
}

fn positive(number: Option<u64>) -> Option<i64>
    ensures { result ≡ positive number }
{
    match number {
        Some(n) if n < 1 << 63 => Some(n as i64),
        _ => None,
    }
}

fn negative(number: Option<u64>) -> Option<i64>
    ensures { result ≡ negative number }
{
    match number {
        Some(n) if n > 0 && n <= 1 << 63 => Some(-1 - (n - 1) as i64),
        _ => None,
    }
}
