//! Tests of asks for the bytes of files.

ghost use Rattle.std.specs.Prelude.{◌≡◌, ◌↔◌, IsTrue};
ghost use Rattle.lam_asks.specs.declared.ask.Ask.TheVariants as ask;

use lam_asks::Ask;
use lam_value::{ByteText, Name};

pub(crate) fn is_file_read(b: &Ask, file: &Name, at: u64, n: u64) -> bool
    ensures { IsTrue result ↔ (ask.FileRead file.now at n ≡ b.now) }
{
    matches!(b, Ask::FileRead { file: x, at: y, n: z } if file.same(x) && at == *y && n == *z)
}

pub(crate) fn is_file_length(b: &Ask, file: &Name) -> bool
    ensures { IsTrue result ↔ (ask.FileLength file.now ≡ b.now) }
{
    matches!(b, Ask::FileLength { file: x } if file.same(x))
}

pub(crate) fn is_append(b: &Ask, file: &Name, bytes: &ByteText) -> bool
    ensures { IsTrue result ↔ (ask.Append file.now bytes.now ≡ b.now) }
{
    matches!(b, Ask::Append { file: x, bytes: y } if file.same(x) && bytes.same(y))
}

pub(crate) fn is_cut(b: &Ask, file: &Name, len: u64) -> bool
    ensures { IsTrue result ↔ (ask.Cut file.now len ≡ b.now) }
{
    matches!(b, Ask::Cut { file: x, len: y } if file.same(x) && len == *y)
}
