//! Tests of asks for entries of directories.

ghost use Rattle.std.specs.Prelude.{◌≡◌, ◌↔◌, IsTrue};
ghost use Rattle.lam_asks.specs.declared.ask.Ask.TheVariants as ask;

use flow_labels::{Label, same};
use lam_asks::Ask;
use lam_value::{ByteText, Name};

pub(crate) fn is_new_file(b: &Ask, dir: &Name, entry: &ByteText, own: &Label) -> bool
    ensures { IsTrue result ↔ (ask.MakeFile dir.now entry.now own.now ≡ b.now) }
{
    match b {
        Ask::MakeFile {
            dir: x,
            entry: y,
            own: z,
        } => dir.same(x) && entry.same(y) && same(own, z),
        _ => false,
    }
}

pub(crate) fn is_new_dir(b: &Ask, dir: &Name, entry: &ByteText, own: &Label) -> bool
    ensures { IsTrue result ↔ (ask.MakeDir dir.now entry.now own.now ≡ b.now) }
{
    match b {
        Ask::MakeDir {
            dir: x,
            entry: y,
            own: z,
        } => dir.same(x) && entry.same(y) && same(own, z),
        _ => false,
    }
}

pub(crate) fn is_file_opening(b: &Ask, dir: &Name, entry: &ByteText) -> bool
    ensures { IsTrue result ↔ (ask.OpenFile dir.now entry.now ≡ b.now) }
{
    matches!(b, Ask::OpenFile { dir: x, entry: y } if dir.same(x) && entry.same(y))
}

pub(crate) fn is_dir_opening(b: &Ask, dir: &Name, entry: &ByteText) -> bool
    ensures { IsTrue result ↔ (ask.OpenDir dir.now entry.now ≡ b.now) }
{
    matches!(b, Ask::OpenDir { dir: x, entry: y } if dir.same(x) && entry.same(y))
}

pub(crate) fn is_removal(b: &Ask, dir: &Name, entry: &ByteText) -> bool
    ensures { IsTrue result ↔ (ask.Remove dir.now entry.now ≡ b.now) }
{
    matches!(b, Ask::Remove { dir: x, entry: y } if dir.same(x) && entry.same(y))
}
