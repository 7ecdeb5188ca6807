//! Directories and files.

use flow_labels::{Label, same};
use labelled_files::{EntryKind, FileFault, Files};
use lam_value::Name;
use std::alloc::Global;

/// Makes a public file of the root.
fn make_file(files: &mut Files, root: &Name, public: &Label) -> Option<Name> {
    files.make_file(root, b"f", public, public).ok()
}

/// Makes a public directory of the root.
fn make_dir(files: &mut Files, root: &Name, public: &Label) -> Option<Name> {
    files.make_dir(root, b"d", public, public).ok()
}

/// Whether a file of 1,048,575 bytes takes one of two more.
fn keeps_a_mebibyte(files: &mut Files, name: &Name, most: &[u8]) -> bool {
    let zeros = files.append(name, most).is_ok();
    let rest = files.append(name, b"xy").is_ok();
    zeros & rest & (files.length(name) == 1_048_576) & ends_in_x(files, name)
}

fn ends_in_x(files: &Files, name: &Name) -> bool {
    files.read(name, 1_048_575, 9) == b"x".as_slice()
}

/// Whether the first three bytes stay after a cut to three.
fn is_cut(files: &mut Files, name: &Name) -> bool {
    files.cut(name, 3);
    files.length(name) == 3
}

/// Whether an entry is made once alone, and one with a slash never.
fn refuses(files: &Files, public: &Label) -> bool {
    let again = files.first_fault(files.root(), b"f", public, public);
    let slash = files.first_fault(files.root(), b"a/b", public, public);
    (again == Some(FileFault::Exists)) & (slash == Some(FileFault::BadName))
}

/// Whether the root has the file.
fn is_listed(files: &Files) -> bool {
    files.look_up(files.root(), b"f", EntryKind::File).is_some()
}

/// Whether an entry goes and its file stays.
fn outlives_its_entry(files: &mut Files, root: &Name, name: &Name) -> bool {
    let before = is_listed(files);
    let removed = files.remove(root, b"f");
    let after = is_listed(files);
    before & removed & !after & files.lives(name, EntryKind::File)
}

/// Whether one file keeps its bytes, its name and its life.
fn keeps_a_file(alloc: Global, files: &mut Files, most: &[u8]) -> Option<bool> {
    let public = Label::public(alloc);
    let root = files.root().copy().ok()?;
    let name = make_file(files, &root, &public)?;
    let long = keeps_a_mebibyte(files, &name, most);
    let cut = is_cut(files, &name);
    let refused = refuses(files, &public);
    Some(long & cut & refused & outlives_its_entry(files, &root, &name))
}

/// Whether new files keep a file of so many bytes and more.
fn new_keep_a_file(alloc: Global, most: &[u8]) -> Option<bool> {
    let mut files = Files::new(alloc).ok()?;
    keeps_a_file(alloc, &mut files, most)
}

/// Whether new files keep a file of a mebibyte.
fn new_keep_a_mebibyte(alloc: Global) -> Option<bool> {
    let most = Vec::from_elem(alloc, 0u8, 1_048_575).ok()?;
    new_keep_a_file(alloc, &most)
}

#[test]
fn file_keeps_a_mebibyte(rt: HostRuntime) {
    assert!(rt; new_keep_a_mebibyte(rt.alloc()) == Some(true));
}

/// Whether two have equal files and directories, and equal ones where the public observer sees.
fn are_same(a: &Files, b: &Files, public: &Label) -> bool {
    a.facts();
    a.same(b) & a.same_seen(b, public) & a.same_counters(b, public)
}

/// Whether a directory is no file, and gets the number after the root's.
fn is_directory(files: &Files, name: &Name, public: &Label) -> bool {
    let kind = files.lives(name, EntryKind::Dir) & !files.lives(name, EntryKind::File);
    kind & (name.n() == 1) & (files.next(public, public) == 2)
}

/// Whether a new directory stands in the one of two that were equal.
fn makes_a_directory(alloc: Global, files: &mut Files, copy: &Files) -> Option<bool> {
    let public = Label::public(alloc);
    let before = are_same(files, copy, &public);
    let root = files.root().copy().ok()?;
    let name = make_dir(files, &root, &public)?;
    Some(before & is_directory(files, &name, &public) & !are_same(files, copy, &public))
}

/// Whether files are equal to their copy, until a directory is made in them.
fn are_copied(alloc: Global, files: &mut Files) -> Option<bool> {
    let copy = files.copy().ok()?;
    makes_a_directory(alloc, files, &copy)
}

/// Whether new files are equal to their copy, until a directory is made in them.
fn new_are_copied(alloc: Global) -> Option<bool> {
    let mut files = Files::new(alloc).ok()?;
    are_copied(alloc, &mut files)
}

#[test]
fn copied_files_are_equal(rt: HostRuntime) {
    assert!(rt; new_are_copied(rt.alloc()) == Some(true));
}

/// Puts an empty file under a name that is free, with the entry `f`.
fn place(files: &mut Files, root: &Name, name: Name) -> bool {
    !files.lives(&name, EntryKind::File)
        && !files.lives(&name, EntryKind::Dir)
        && name.n() < files.next(name.maker(), name.own())
        && files.place(root, b"f", EntryKind::File, name) == Ok(())
}

/// Whether the entry `f` is the first and only one, and leads to the file with number 3.
fn is_alone(files: &Files, root: &Name) -> bool {
    let first = match files.entry_at(root, 0) {
        None => false,
        Some((entry, kind, name)) => {
            (entry == b"f".as_slice()) & (kind == EntryKind::File) & (name.n() == 3)
        }
    };
    first & files.entry_at(root, 1).is_none()
}

/// Whether the public home alone is counted, with this counter.
fn is_counted_alone(files: &Files, public: &Label, counter: u64) -> bool {
    let first = match files.counter_at(0) {
        None => false,
        Some((maker, own, number)) => {
            same(maker, public) & same(own, public) & (number == counter)
        }
    };
    first & files.counter_at(1).is_none()
}

/// Whether a file is put back under its number, after its home's counter.
fn puts_back(files: &mut Files, public: &Label) -> Option<bool> {
    let root = files.root().copy().ok()?;
    let name = Name::of(public, public, 3).ok()?;
    let raised = files.raise_counter(public, public, 5).is_ok();
    let lower = files.raise_counter(public, public, 2).is_ok();
    let placed = place(files, &root, name);
    let counted = files.next(public, public) == 5 && is_counted_alone(files, public, 5);
    Some(raised & lower & placed & counted & is_alone(files, &root))
}

/// Whether a file is put back into new files.
fn new_put_back(alloc: Global) -> Option<bool> {
    let mut files = Files::new(alloc).ok()?;
    puts_back(&mut files, &Label::public(alloc))
}

#[test]
fn a_file_is_put_back(rt: HostRuntime) {
    assert!(rt; new_put_back(rt.alloc()) == Some(true));
}
