//! The pieces of text that the printer writes at once.

ghost use Rattle.std.specs.Prelude.{◌≡◌, ◌<◌, ◌/◌, ◌%◌, ◌++◌, ◌∷◌, [], OnOk};
ghost use Rattle.std.specs.String.{string_bytes};
ghost use Rattle.lam_lexer.specs.declared.token.TokenKind.TheVariants as Kind;
ghost use Rattle.lam_syntax.specs.Tree.{id_tree};
ghost use Rattle.lam_print.specs.Pieces.{hex_digit, spell_byte, spell_text, line, spelling};
ghost use Rattle.lam_print.specs.Canon.{name, opened, closed, comma, spaced, gap};
ghost use Rattle.lam_print.specs.Printing.{Puts};

use lam_syntax::Id;
use want_of_memory::NoMemory;

/// Writes some text.
pub fn put(out: &mut String, text: &str) -> Result<(), NoMemory>
    ensures { OnOk result (string_bytes out.new ≡ string_bytes out.old ++ text.now) }
{
    out.push_str(text)?;
    Ok(())
}

pub fn put_name(out: &mut String, x: &Id) -> Result<(), NoMemory>
    ensures { OnOk result (Puts (string_bytes out.old) (string_bytes out.new) (name (id_tree x.now))) }
{
    put(out, x.name.as_str())
}

pub fn put_number(out: &mut String, n: i64) -> Result<(), NoMemory>
    ensures { OnOk result (string_bytes out.new ≡ string_bytes out.old ++ spelling (Kind.Number n)) }
{
    let mut buffer = itoa::Buffer::new();
    put(out, buffer.format(n))
}

pub fn open_group(out: &mut String, group: bool) -> Result<(), NoMemory>
    ensures { OnOk result (Puts (string_bytes out.old) (string_bytes out.new) (opened group)) }
{
    if group { put(out, "(") } else { Ok(()) }
}

pub fn close_group(out: &mut String, group: bool) -> Result<(), NoMemory>
    ensures { OnOk result (Puts (string_bytes out.old) (string_bytes out.new) (closed group)) }
{
    if group { put(out, ")") } else { Ok(()) }
}

/// A comma and a blank, where something stands before.
pub fn put_comma(out: &mut String, later: bool) -> Result<(), NoMemory>
    ensures { OnOk result (Puts (string_bytes out.old) (string_bytes out.new) (comma later)) }
{
    if later { put(out, ", ") } else { Ok(()) }
}

/// A blank, after a comma where something stands before.
pub fn put_spaced(out: &mut String, later: bool) -> Result<(), NoMemory>
    ensures { OnOk result (Puts (string_bytes out.old) (string_bytes out.new) (spaced later)) }
{
    if later { put(out, ", ") } else { put(out, " ") }
}

/// An empty line, where an item stands before.
pub fn put_gap(out: &mut String, later: bool) -> Result<(), NoMemory>
    ensures { OnOk result (Puts (string_bytes out.old) (string_bytes out.new) (gap later)) }
{
    if later { put(out, "\n") } else { Ok(()) }
}

/// A line feed, and two blanks for each open block.
pub fn put_line(out: &mut String, depth: u64) -> Result<(), NoMemory>
    ensures { OnOk result (Puts (string_bytes out.old) (string_bytes out.new) (λ ps. line depth ∷ ps)) }
{
    put(out, "\n")?;
    for _i in 0..depth {
        put(out, "  ")?;
    }
    Ok(())
}

fn hex(d: u8) -> char
    requires { d < 16 }
    ensures is { result ≡ hex_digit d }
    ensures ascii { result < 128 }
{
    if d < 10 {
        (b'0' + d) as char
    } else {
        (b'a' - 10 + d) as char
    }
}

fn put_char(out: &mut String, c: char) -> Result<(), NoMemory>
    requires { c < 128 }
    ensures { OnOk result (string_bytes out.new ≡ string_bytes out.old ++ c ∷ []) }
{
    out.push(c)?;
    Ok(())
}

fn put_two(out: &mut String, c: char, d: char) -> Result<(), NoMemory>
    requires first { c < 128 }
    requires second { d < 128 }
    ensures { OnOk result (string_bytes out.new ≡ string_bytes out.old ++ c ∷ d ∷ []) }
{
    put_char(out, c)?;
    put_char(out, d)
}

fn put_hex(out: &mut String, b: u8) -> Result<(), NoMemory>
    ensures { OnOk result (string_bytes out.new ≡ string_bytes out.old ++ 92 ∷ 120 ∷ hex_digit (b / 16) ∷ hex_digit (b % 16) ∷ []) }
{
    put_two(out, '\\', 'x')?;
    put_two(out, hex(b / 16), hex(b % 16))
}

fn put_byte(out: &mut String, b: u8) -> Result<(), NoMemory>
    ensures { OnOk result (string_bytes out.new ≡ string_bytes out.old ++ spell_byte b) }
{
    if b == b'"' {
        return put_two(out, '\\', '"');
    }
    if b == b'\\' {
        return put_two(out, '\\', '\\');
    }
    if 32 <= b && b <= 126 {
        return put_char(out, b as char);
    }
    put_hex(out, b)
}

/// A text between quotes.
pub fn put_text(out: &mut String, bs: &[u8]) -> Result<(), NoMemory>
    ensures { OnOk result (string_bytes out.new ≡ string_bytes out.old ++ 34 ∷ spell_text bs.now) }
{
    put_char(out, '"')?;
    let mut i = 0;
    while i < bs.len() {
        put_byte(out, bs[i])?;
        i += 1;
    }
    put_char(out, '"')
}
