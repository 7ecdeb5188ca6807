//! The number of bytes that a text takes in a document.

ghost use Rattle.std.specs.Prelude.{◌≡◌, ◌+◌, ◌≤◌, length};
ghost use Rattle.json.specs.Print.{escape, escape_letter};
ghost use Rattle.world_save_items.specs.Measures.{capped, byte_size};

/// A number of bytes after more of them, at most the greatest number.
pub fn more(bytes: u64, others: u64) -> u64
    ensures { result ≡ capped (bytes + others) }
{
    if others <= u64::MAX - bytes {
        bytes + others
    } else {
        u64::MAX
    }
}

/// The letter of a byte's short escape, or 0 where it has none.
pub fn letter(b: u8) -> u8
    ensures { result ≡ escape_letter b }
{
    if b == 34 || b == 92 {
        b
    } else if b == 8 {
        98
    } else if b == 12 {
        102
    } else if b == 10 {
        110
    } else if b == 13 {
        114
    } else if b == 9 {
        116
    } else {
        0
    }
}

/// The number of bytes that one byte of a text takes between quotes.
fn byte_len(b: u8) -> u64
    ensures { result ≡ byte_size b }
{
    if 0 < letter(b) {
        2
    } else if b < 32 {
        6
    } else {
        1
    }
}

/// The number of bytes that a text takes between quotes, at most the greatest number.
pub fn escaped_len(text: &[u8]) -> u64
    ensures { result ≡ capped (length (escape text.now)) }
{
    let mut bytes = 0u64;
    let mut rest = text;
    while let Some((b, after)) = rest.split_first() {
        bytes = more(bytes, byte_len(*b));
        rest = after;
    }
    bytes
}
